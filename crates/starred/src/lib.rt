// The cases that carry a star, as one list with one theorem over the definitions of `reading`, `station_rules` and `chart_rules`, and those of a line's phase. No code.

#![tactic(auto)]
