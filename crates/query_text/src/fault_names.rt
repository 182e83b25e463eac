//! The names of faults.

ghost use Rattle.std.specs.Prelude.{◌≡◌};
ghost use Rattle.query_text.specs.Answered.{fault_name};

use query_plan::AskFault;

/// The name of a fault, by which a query is refused.
pub fn fault_name(fault: AskFault) -> &'static str
    ensures { result.now ≡ fault_name fault }
{
    match fault {
        AskFault::NoMemory => "NoMemory",
        AskFault::Syntax { .. } => "Syntax",
        AskFault::UnknownName { .. } => "UnknownName",
        AskFault::NameTwice { .. } => "NameTwice",
        AskFault::WrongKind { .. } => "WrongKind",
        AskFault::TooHigh { .. } => "TooHigh",
        AskFault::TooMany => "TooMany",
        AskFault::Overflow => "Overflow",
    }
}
