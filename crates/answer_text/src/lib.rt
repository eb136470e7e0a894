// The text of an answer: numbers in decimal, lines, rows, and a text in a lent buffer.

#![tactic(auto)]
