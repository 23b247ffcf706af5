//! Tests of type maps, least lists of ranges and the plain calls, over public calls.
#![tactic(auto)]

#[cfg(test)]
mod checks;
#[cfg(test)]
mod least_lists;
#[cfg(test)]
mod maps;
#[cfg(test)]
mod plain_calls;
