// From the plans of the calls to crash safety: what holds between calls, and that every plan keeps it at every prefix
// of its actions. Laws alone.
#![tactic(auto)]
