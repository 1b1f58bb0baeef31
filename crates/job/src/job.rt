use network::network::Network;
use rules::both::Both;
use rules::links::Links;
use rules::tuner::Tuner;

/// The two networks of a job, each under both of its links and its tuner. They are made by their load, and cannot be changed.
// The pairs stand apart: how much room they are given is for the caller to say.
#[derive(Drop)]
pub struct Job {
    pub(crate) left: Network<Both<Links, Tuner>>,
    pub(crate) right: Network<Both<Links, Tuner>>,
}
