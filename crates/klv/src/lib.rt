// A KLV, what every walk, run and set gives: where its key starts, where its value starts and how long that is, the bytes that
// its length took and whether they are the shortest form. Its bytes stay in the buffer, and are handed out as parts of it.
#![tactic(auto)]

ghost use Rattle.std.specs.Prelude.{◌≡◌, take, drop};
ghost use Rattle.labels.specs.Label.{label_at};

// No two fields that a host is given side by side stand side by side here: they would be loaded as one, right behind two stores, and
// x86-64 waits for that.
#[derive(Clone, Copy, Debug, PartialEq, Eq)]
pub struct Klv {
    pub value: usize,
    pub size: usize,
    pub at: usize,
    pub len: usize,
    pub shortest: bool,
}

impl Klv {
    // The 16 bytes of its label: as many of them as are there.
    pub fn label(self, s: &[u8]) -> &[u8]
        ensures { result.now ≡ label_at s.now self.at }
    {
        labels::label(s, self.at)
    }

    // Its value's bytes: as many of them as are there.
    pub fn bytes(self, s: &[u8]) -> &[u8]
        ensures { result.now ≡ take self.len (drop self.value s.now) }
    {
        parts::part(s, self.value, self.len)
    }
}
