// What the steps are to one name.
ghost use Rattle.std.specs.Prelude.{◌≡◌, Bool, ℕ, List};
ghost use Rattle.mupdate_codec.specs.declared.command.MResponse.{MResponse};
ghost use Rattle.mupdate_codec.specs.declared.tag.Tag.{Tag};
ghost use Rattle.node_record.specs.Held.{Names};
ghost use Rattle.home_law.specs.Items.{Mine, backend_up, backend_end};
ghost use Rattle.home_law.specs.ManyNames.{downs_of};
ghost use Rattle.home_law.specs.Steps.{hear};
ghost use Rattle.name_flows.specs.declared.ask.NameAsk.{NameAsk};
ghost use Rattle.name_flows.specs.declared.flows.Flows.{Flows};
ghost use Rattle.name_flows.specs.Asked.{asked_step};
ghost use Rattle.name_flows.specs.Heard.{heard_step};
ghost use Rattle.name_flows.specs.Link.{end_step};
ghost use Rattle.name_flows.specs.Listing.{up_step};
ghost use Rattle.name_flows.specs.OneName.{ctl_of, seen_by, asked_as, heard_as, told_by, open_lines, CanHear};

/// An ask is to its name what the protocol of one name makes of it, and to each other name nothing.
pub fn an_ask_is_one_of_its_name()
    ensures { (linked : Bool) (name : List ℕ) (flows : Flows) (held : Names) (it : NameAsk)
        → asked_as name it (ctl_of linked held flows name) ≡ seen_by name linked held (asked_step flows held it) }
{}

/// A response, read by the lines whose last answer hasn't come, is to each name what the protocol of one name makes of it. It is the end of a resync
/// alone of which nothing is said.
pub fn a_response_is_one_of_each_name()
    ensures { (linked : Bool) (name : List ℕ) (flows : Flows) (held : Names) (tag : Tag) (it : MResponse) (m : Mine)
        → CanHear m linked name flows held tag it
        → heard_as (downs_of name (open_lines flows) (told_by it)) (ctl_of linked held flows name)
        ≡ seen_by name linked held (heard_step flows held tag it) }
{}

/// So is what the link's beginning and its end are.
pub fn the_link_is_one_of_each_name()
    ensures up { (linked : Bool) (name : List ℕ) (flows : Flows) (held : Names)
        → hear (ctl_of linked held flows name) backend_up ≡ seen_by name linked held (up_step flows) }
    ensures ended { (linked : Bool) (name : List ℕ) (flows : Flows) (held : Names)
        → hear (ctl_of linked held flows name) backend_end ≡ seen_by name linked held (end_step flows) }
{}
