// What a queue with answers about many names is to one.
ghost use Rattle.home_law.specs.ManyNames.{ListsEach, FindsEach, ReadsInOrder};

/// To each name the answer to LIST, or to FIND, is what the protocol of one name answers to it, whatever is on the link before.
pub fn answers_are_to_each_name_its_own()
    ensures lists { ListsEach }
    ensures finds { FindsEach }
    ensures in_order { ReadsInOrder }
{}
