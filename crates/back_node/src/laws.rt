// What holds of the steps of a backend.
ghost use Rattle.std.specs.Prelude.{◌≡◌, Bool, true, false, ℕ, List, Option, None, Some};
ghost use Rattle.mur_base.specs.declared.home.Location.{Location};
ghost use Rattle.link_msg.specs.declared.ask.FrontAsk.{FrontAsk};
ghost use Rattle.link_msg.specs.declared.message.LinkMsg.{LinkMsg};
ghost use Rattle.link_msg.specs.declared.message.LinkMsg.TheVariants.{Up, End, Line, Ask};
ghost use Rattle.mupdate_codec.specs.declared.command.MResponse.{MResponse};
ghost use Rattle.mupdate_codec.specs.declared.tag.Tag.{Tag};
ghost use Rattle.mupdate_codec.specs.Whole.{response_in};
ghost use Rattle.node_record.specs.Held.{phases_of};
ghost use Rattle.backend_core.specs.HomeLaws.{RisesAt, is_open_here};
ghost use Rattle.backend_core.specs.HomeStep.{held_at};
ghost use Rattle.home_law.specs.Items.{Mine, backend_end, backend_up};
ghost use Rattle.home_law.specs.ManyNames.{downs_of};
ghost use Rattle.home_law.specs.Steps.{hear};
ghost use Rattle.name_flows.specs.declared.ask.AskKind.{AskKind};
ghost use Rattle.name_flows.specs.declared.resync.Resync.{Resync};
ghost use Rattle.name_flows.specs.Asked.{asked_step};
ghost use Rattle.name_flows.specs.Heard.{heard_step};
ghost use Rattle.name_flows.specs.Link.{end_step};
ghost use Rattle.name_flows.specs.Listing.{up_step};
ghost use Rattle.name_flows.specs.OneName.{CanHear, asked_as, ctl_of, heard_as, open_lines, told_by};
ghost use Rattle.name_flows.specs.Steps.{held_with};
ghost use Rattle.back_node.specs.declared.node.BackNode.{BackNode};
ghost use Rattle.back_node.specs.Node.{is_my_master, new_node};
ghost use Rattle.back_node.specs.NodeLaws.{AsksAs, ChangesNoMailbox, IsAmong, IsAtHome, IsCarriedOut, OwesOnly, SaysOnly, after_messages, answered_only};
ghost use Rattle.back_node.specs.NodeLaws.{elsewhere, entries_of_messages, is_of_messages, step_to, waits_on};
ghost use Rattle.back_node.specs.Takes.{name_ask, name_kind, node_takes};

/// The mailboxes after a step are what its one entry makes of those before; so they are what all entries make, from the start on.
pub fn the_mailboxes_are_what_the_entries_make()
    ensures step { (node : BackNode) (from : List ℕ) (message : LinkMsg)
        → (node_takes node from message).state.home.held ≡ held_with node.home.held (node_takes node from message).entry }
    ensures all { (me : Location) (master : List ℕ) (all : List (List ℕ × LinkMsg))
        → (after_messages (new_node me master) all).home.held ≡ phases_of (entries_of_messages (new_node me master) all) }
{}

/// An ask for messages is carried out in its step where the mailbox is open here. Elsewhere it is answered by where the mailbox has moved to, or that
/// it can't be served now, and changes nothing. CREATEs and DELETEs under way, and a resync, make no difference to it.
pub fn an_ask_for_messages_never_waits()
    ensures open { (node : BackNode) (from : List ℕ) (ask : FrontAsk) → is_of_messages ask.op ≡ true
        → is_open_here (held_at node.home ask.name) ≡ true → RisesAt node.home ask.name → IsCarriedOut node from ask }
    ensures elsewhere { (node : BackNode) (from : List ℕ) (ask : FrontAsk) → is_of_messages ask.op ≡ true
        → is_open_here (held_at node.home ask.name) ≡ false
        → node_takes node from (Ask ask) ≡ answered_only node from ask (elsewhere (held_at node.home ask.name)) }
    ensures alone { (node : BackNode) (from : List ℕ) (ask : FrontAsk) → name_kind ask.op ≡ None → IsAtHome node from ask }
{}

/// A CREATE or DELETE changes no mailbox in the step in which it comes. While a resync runs it waits behind those that wait.
pub fn a_create_or_delete_waits_for_a_resync()
    ensures mailboxes { (node : BackNode) (from : List ℕ) (ask : FrontAsk) (kind : AskKind) → name_kind ask.op ≡ Some kind
        → ChangesNoMailbox node from ask }
    ensures waits { (node : BackNode) (from : List ℕ) (ask : FrontAsk) (kind : AskKind) (it : Resync) → name_kind ask.op ≡ Some kind
        → node.flows.resync ≡ Some it → node_takes node from (Ask ask) ≡ waits_on node (name_ask from ask kind) it }
{}

/// Lines go to the master alone, and answers to those alone who asked.
pub fn only_the_master_and_those_who_asked_are_told()
    ensures start { (fronts : List ℕ → Bool) (me : Location) (master : List ℕ) → OwesOnly (IsAmong fronts) (new_node me master).flows }
    ensures step { (fronts : List ℕ → Bool) (node : BackNode) (from : List ℕ) (message : LinkMsg) → OwesOnly (IsAmong fronts) node.flows
        → AsksAs (IsAmong fronts) from message → SaysOnly (IsAmong fronts) node (node_takes node from message) }
{}

/// To each name a step is the one of the protocol of one name, or nothing. Of the end of a resync nothing is said.
pub fn a_step_is_one_of_each_name()
    ensures up { (node : BackNode) (from name : List ℕ) (linked : Bool) → is_my_master node from ≡ true
        → hear (ctl_of linked node.home.held node.flows name) backend_up
        ≡ step_to name linked (node_takes node from Up) (up_step node.flows).sends }
    ensures ended { (node : BackNode) (from name : List ℕ) (linked : Bool) → is_my_master node from ≡ true
        → hear (ctl_of linked node.home.held node.flows name) backend_end
        ≡ step_to name linked (node_takes node from End) (end_step node.flows).sends }
    ensures line { (node : BackNode) (from line : List ℕ) (tag : Tag) (it : MResponse) (m : Mine) (name : List ℕ) (linked : Bool)
        → is_my_master node from ≡ true → response_in line ≡ Some (tag, it) → CanHear m linked name node.flows node.home.held tag it
        → heard_as (downs_of name (open_lines node.flows) (told_by it)) (ctl_of linked node.home.held node.flows name)
        ≡ step_to name linked (node_takes node from (Line line)) (heard_step node.flows node.home.held tag it).sends }
    ensures asked { (node : BackNode) (from : List ℕ) (ask : FrontAsk) (kind : AskKind) (name : List ℕ) (linked : Bool)
        → name_kind ask.op ≡ Some kind
        → asked_as name (name_ask from ask kind) (ctl_of linked node.home.held node.flows name)
        ≡ step_to name linked (node_takes node from (Ask ask)) (asked_step node.flows node.home.held (name_ask from ask kind)).sends }
    ensures messages { (node : BackNode) (from : List ℕ) (ask : FrontAsk) (name : List ℕ) (linked : Bool) → name_kind ask.op ≡ None
        → ctl_of linked (node_takes node from (Ask ask)).state.home.held (node_takes node from (Ask ask)).state.flows name
        ≡ ctl_of linked node.home.held node.flows name }
{}
