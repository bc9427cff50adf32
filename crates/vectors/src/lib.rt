// The theorem on equal vectors, and no code: specs/ has its statement.
#![tactic(auto)]
