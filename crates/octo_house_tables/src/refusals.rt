//! Refusals and faults as answers.
ghost use Rattle.std.specs.Prelude.{◌≡◌};
ghost use Rattle.octo_house_rules.specs.Refusals.{answer_of_refusal, answer_of_user_refusal, answer_of_queue_refusal};
ghost use Rattle.octo_house_tables.specs.Faults.{answer_of_keeper_fault, answer_of_shelf_fault};

use job_desk::Refusal;
use octo_access::UserRefusal;
use octo_asks::{Answer, ShownEntry};
use octo_keeper::{KeeperFault, ShelfFault};
use print_queue::QueueRefusal;

/// The desk's refusal as an answer.
pub fn answer_of_refusal(refusal: Refusal) -> Answer
    ensures { result ≡ answer_of_refusal refusal }
{
    match refusal {
        Refusal::WrongState { state } => Answer::WrongState { state },
        Refusal::NoFile => Answer::NoneSelected,
        Refusal::Full { held } => Answer::Full { count: held },
        Refusal::FileBusy => Answer::FileBusy,
        Refusal::TooHotLine { line, asked, limit } => Answer::TooHotLine { line, asked, limit },
    }
}

/// The users' refusal as an answer.
pub fn answer_of_user_refusal(refusal: &UserRefusal) -> Answer
    ensures { result ≡ answer_of_user_refusal refusal.now }
{
    match refusal {
        UserRefusal::BadGroup { group } => Answer::BadGroup {
            group: group.copy(),
        },
        UserRefusal::NoUser => Answer::NoUser,
        UserRefusal::NameTaken => Answer::NameTaken { kept: None },
        UserRefusal::KeyTaken { name } => Answer::KeyTaken { name: name.copy() },
        UserRefusal::Full { count } => Answer::Full { count: *count },
        UserRefusal::NoMemory => Answer::NoMemory,
    }
}

/// The queue's refusal as an answer.
pub fn answer_of_queue_refusal(refusal: &QueueRefusal) -> Answer
    ensures { result ≡ answer_of_queue_refusal refusal.now }
{
    match refusal {
        QueueRefusal::NameTaken { kept } => Answer::NameTaken {
            kept: Some(ShownEntry::of(kept)),
        },
        QueueRefusal::NoEntry => Answer::NoEntry,
        QueueRefusal::Full { count } => Answer::Full { count: *count },
        QueueRefusal::ArrivalsUsed => Answer::ArrivalsUsed,
        QueueRefusal::NoMemory => Answer::NoMemory,
    }
}

/// The keeper's fault as an answer.
pub fn answer_of_keeper_fault(fault: KeeperFault) -> Answer
    ensures { result ≡ answer_of_keeper_fault fault }
{
    match fault {
        KeeperFault::Failed => Answer::KeeperFault,
        KeeperFault::NoMemory => Answer::NoMemory,
    }
}

/// The shelf's fault as an answer.
pub fn answer_of_shelf_fault(fault: ShelfFault) -> Answer
    ensures { result ≡ answer_of_shelf_fault fault }
{
    match fault {
        ShelfFault::Failed => Answer::ShelfFault,
        ShelfFault::NoMemory => Answer::NoMemory,
    }
}
