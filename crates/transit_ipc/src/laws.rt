// Laws of the definitions. Each function does nothing, and its contract is the laws.
ghost use Rattle.transit_ipc.specs.Laws.{MessagesAreInOrder};
ghost use Rattle.transit_ipc.specs.Rows.{MessagesInOrder, RefusedMessages};

/// Worked scripts, computed by the definitions.
pub fn worked_scripts()
    ensures messages_in_order { MessagesInOrder }
    ensures refused_messages { RefusedMessages }
{}

/// Of each port, what is received is what was sent, in order, each message once and with the bytes
/// of the moment of sending, up to the messages that still wait.
pub fn sending()
    ensures { MessagesAreInOrder }
{}
