// Rows in key order, order 7: definitions and laws alone, apart from how memory holds the rows.
#![tactic(auto)]
