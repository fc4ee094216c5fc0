// The definitions that the product is proved against, in the words of document 01. There is no code here.

#![tactic(auto)]
