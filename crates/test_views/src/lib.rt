//! Tests of what no text shows: what is laid out in a chart, what its pictures say in words, and what a listener hears of
//! a run.
//! They stand above the views, so that these aren't proved a second time for their tests. Lines, JSON, texts of Z.120 and
//! whole pictures are cases of `conformance`.
#![tactic(auto)]

#[cfg(test)]
mod charts;
#[cfg(test)]
mod crowd;
#[cfg(test)]
mod heard;
#[cfg(test)]
mod orders;
#[cfg(test)]
mod parts;
#[cfg(test)]
mod pictures;
#[cfg(test)]
mod relay;
#[cfg(test)]
mod replay;
#[cfg(test)]
mod runs;
#[cfg(test)]
mod spent;
#[cfg(test)]
mod texts;
