// What the judge says, as definitions, proved against the book. The one type here is the verdict, which the judge that runs gives too (01, The judge's rules).
#![tactic(auto)]

pub mod verdict;
