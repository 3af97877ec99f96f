// Input contexts: what Address, Evaluate and Configure are given (context.rs and device.rs of the original).
// The code that writes them: context_writer.
#![tactic(auto)]
