// Definitions and theorems only: worked rows of setting up a connection, drawn from the page and RFC 7609.
#![tactic(auto)]
