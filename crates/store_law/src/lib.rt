//! Laws of the store alone, whatever serves it: what a command may take away, what one that was answered OK has done, which UIDs and UIDVALIDITYs
//! there are, when a session has begun, what a LIST tells, what a client can conclude of its mailbox from the lines that it is given, that a mailbox which
//! is only read stays as it is, and that the store by itself refuses nothing because a mailbox moves. Nothing here runs.
#![tactic(auto)]
