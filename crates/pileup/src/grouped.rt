// Words in groups, one after the other: a read's rows, a variant's pile.
ghost use Rattle.std.specs.Prelude.{◌≡◌, ◌≤◌, length};
ghost use Rattle.pileup.specs.Inner.Packed.{group_start, group_words, GroupThere};

// The words, and where those of each group end. How many groups there are is a clause: `ends` may be scratch that is longer than the groups.
#[derive(Clone, Copy)]
pub struct Groups<'a> {
    pub words: &'a [u64],
    pub ends: &'a [usize],
}

// Where the words of group g start.
pub fn group_start(ends: &[usize], g: usize) -> usize
    requires { g ≤ length ends.now }
    ensures { result ≡ group_start ends.now g }
{
    if g == 0 { 0 } else { ends[g - 1] }
}

impl<'a> Groups<'a> {
    // The words of group g.
    pub fn group(&self, g: usize) -> &'a [u64]
        requires { GroupThere self.now.ends.now self.now.words.now g }
        ensures { result.now ≡ group_words self.now.ends.now self.now.words.now g }
    {
        let start = group_start(self.ends, g);
        &self.words[start..self.ends[g]]
    }
}
