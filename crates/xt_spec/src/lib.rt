//! Definitions alone: what the characters, names, tokens, trees, readings and values of XML are.
//! XML 1.0 (Fifth Edition) and Namespaces in XML 1.0. A text is the list of its bytes; offsets stand in no definition.
//! No function is here: the crates above state their contracts in these words.
#![tactic(auto)]
