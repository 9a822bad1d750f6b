// No code: along every run the accepted events of clients and servers are the accepted calls on their stored records.

#![tactic(auto)]
