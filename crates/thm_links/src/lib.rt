// Definitions and theorems only: what holds of link message, link send and link change beyond their rules.
#![tactic(auto)]

// Definitions and theorems only: over which links an exchange is run, in the page's words.
