//! A fault: what `check` answers, where it lies, in what, and what is there.
pub(crate) mod after;
pub(crate) mod answer;
pub(crate) mod class;
pub(crate) mod container;
pub(crate) mod diagnosis;
pub(crate) mod location;
pub(crate) mod over;
