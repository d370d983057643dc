//! Definitions alone: the nodes of a book (XML Information Set), and the tree that is printed of them (of this project).
//! A text is the list of its bytes. No function is here: the crates above state their contracts in these words.
#![tactic(auto)]
