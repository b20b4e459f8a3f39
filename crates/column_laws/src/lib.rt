// Laws that code over columns shares, without code: a tested job's pattern, columns listed by links, the lists of all columns one
// behind the other.
#![tactic(auto)]
