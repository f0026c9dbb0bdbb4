//! Where a piece of work of the machine on the written tree stands in a graph: at which spot of which
//! function. It has definitions, and the lemmas by which the work of a form stands where the work of
//! its parts does. It knows nothing of values, states and steps, and nothing of any particular form.
#![tactic(auto)]
