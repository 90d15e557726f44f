// Each definition and each line of a data program has a name.

use crate::{BnbSpec, DataLine, DataProg, DivCon, FilterSpec};
use msl_base::Named;

impl Named for DataLine {
    ghost called = { λ l. l.name };

    fn name(&self) -> &str {
        self.name.as_str()
    }
}

impl Named for DataProg {
    ghost called = { λ d. d.name };

    fn name(&self) -> &str {
        self.name.as_str()
    }
}

impl Named for FilterSpec {
    ghost called = { λ f. f.name };

    fn name(&self) -> &str {
        self.name.as_str()
    }
}

impl Named for DivCon {
    ghost called = { λ d. d.name };

    fn name(&self) -> &str {
        self.name.as_str()
    }
}

impl Named for BnbSpec {
    ghost called = { λ b. b.name };

    fn name(&self) -> &str {
        self.name.as_str()
    }
}
