ghost use Rattle.call_laws.specs.SerialOrder.{RundownIsOne, SerialEndsAnswered, SerialIsInOrder, SerialIsOne};

/// What the serial policy gives has each process's requests once and in order; when no task is left,
/// all of them. Two finished serial journals of one configuration that were told the same outcomes of
/// landings and have right values are equal, and so are two rundowns of one journal.
pub fn serial_is_in_order()
    ensures order { SerialIsInOrder }
    ensures answered { SerialEndsAnswered }
    ensures one { SerialIsOne }
    ensures rundown { RundownIsOne }
{}
