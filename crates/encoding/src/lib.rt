// What is written from the arrays of a table that the reader can return: the file of that table, byte for byte (document 01, 'The file').
// Promises: a theorem over every such table; and whatever the arrays hold, bytes.
// Builds on writing, on referring for what a table that can stand in a file has, and on the layout.
#![tactic(auto)]
