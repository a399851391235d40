//! The program that was started last.
use crate::past::Past;

/// Where it runs: on the host below, on the real one, or nowhere, since it is answered as in an earlier run.
#[derive(Drop)]
pub(crate) enum Playing {
    Below,
    Real,
    Again(Past),
}
