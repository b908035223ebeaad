// Tests of sheets, typed cells and sheet files through their public calls.
#![tactic(auto)]

#[cfg(test)]
mod cells;
#[cfg(test)]
mod counting;
#[cfg(test)]
mod files;
#[cfg(test)]
mod kinds;
#[cfg(test)]
mod making;
#[cfg(test)]
mod parts;
#[cfg(test)]
mod reaching;
