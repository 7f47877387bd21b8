//! The worked cases of journals.

mod closing;
mod failovers;
mod finished;
mod following;
mod states;
