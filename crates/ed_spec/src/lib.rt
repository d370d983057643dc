//! Definitions alone: what an edit makes of the bytes of a file and of the nodes of a book; of this project.
//! A text is the list of its bytes, but where its characters are said to be meant. No function is here: the crates above
//! state their contracts in these words.
#![tactic(auto)]
