// Lists of pages, and of anything: definitions and laws that the crates above share. No code.
#![tactic(auto)]
