// What a step of the master is to the replicas of frontends.
ghost use Rattle.feed_links.specs.OneFeed.{NoopsKeepIt, HearsKeepsIt, EndKeepsIt, UpKeepsIt, TakesKeepsIt, LateKeepsIt, OthersKeepIt, ClientsKeepIt, BreaksKeepIt, MendsKeepIt, SendsLines};
ghost use Rattle.feed_links.specs.Streams.{StreamsFollow, UpdateBegins, OthersLeave, NoopTellsNothing, TablesCanBeTold, StreamsStayInOrder};

/// Whatever line comes to the master, whoever sent it: what is sent to a node with a stream makes of the replica of the table that of the table after the
/// step. UPDATE begins a stream, with the whole table.
pub fn streams_follow_the_table()
    ensures follow { StreamsFollow }
    ensures begins { UpdateBegins }
    ensures noop { NoopTellsNothing }
    ensures told { TablesCanBeTold }
    ensures order { StreamsStayInOrder }
{}

/// No line of another sender begins or ends a node's stream, and without one it is sent nothing for it.
pub fn a_node_keeps_its_stream()
    ensures { OthersLeave }
{}

/// What holds of one feed stays so in each event: the frontend sends NOOP or takes a message, the master takes one of the frontend's, another node's, or
/// what a client from outside does; their link breaks, or comes up again.
pub fn each_event_keeps_a_feed()
    ensures noops { NoopsKeepIt }
    ensures hears { HearsKeepsIt }
    ensures ends { EndKeepsIt }
    ensures comes_up { UpKeepsIt }
    ensures takes { TakesKeepsIt }
    ensures late { LateKeepsIt }
    ensures others { OthersKeepIt }
    ensures clients { ClientsKeepIt }
    ensures breaks { BreaksKeepIt }
    ensures mends { MendsKeepIt }
    ensures lines { SendsLines }
{}
