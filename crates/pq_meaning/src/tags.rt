ghost use Rattle.pq_meaning.specs.Tags.{ClassesTag};

/// Law. The classes of the words of queries give the tags of these words: one more than the number of the class.
pub fn classes_tag()
    ensures { ClassesTag }
{}
