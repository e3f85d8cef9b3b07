//! A lexical form in a text, cut into runs of plain bytes and the escapes between them.
ghost use Rattle.std.specs.Prelude.{◌≡◌, false};
ghost use Rattle.std.specs.List.{list_all, prefix_len};
ghost use Rattle.rdf_term.specs.Escapes.{escape_by, stays, CutsTo};

/// Which characters are escaped.
#[derive(Clone, Copy)]
pub(crate) enum Escapes {
    /// Quotation mark, backslash, LF and CR.
    Canon,
    /// Tab too.
    Tsv,
}

impl Escapes {
    /// Whether a byte stands for itself.
    #[tactic(auto, using(std::proofs::lemmas::Bool::Decides::nat_tests))]
    fn keeps(self, b: u8) -> bool
        ensures { result ≡ stays self b }
    {
        let plain = (b != b'"') & (b != b'\\') & (b != b'\n') & (b != b'\r');
        match self {
            Escapes::Canon => plain,
            Escapes::Tsv => plain & (b != b'\t'),
        }
    }

    /// The escape of a byte that doesn't stand for itself.
    #[tactic(auto, using(std::proofs::lemmas::Bool::Decides::nat_tests))]
    fn escape(self, b: u8) -> &'static str
        requires { stays self b ≡ false }
        ensures { result.now ≡ escape_by self b }
    {
        match b {
            b'"' => "\\\"",
            b'\\' => "\\\\",
            b'\n' => "\\n",
            b'\r' => "\\r",
            _ => "\\t",
        }
    }
}

/// Whether each byte stands for itself. No byte ends the loop, so many are tested at once.
pub(crate) fn all_stay(escapes: Escapes, bytes: &[u8]) -> bool
    ensures { result ≡ list_all (stays escapes) bytes.now }
{
    let mut stay = true;
    for b in bytes {
        stay &= escapes.keeps(*b);
    }
    stay
}

/// How many bytes stand for themselves, up to the first that doesn't.
fn plain_len(escapes: Escapes, bytes: &[u8]) -> usize
    ensures { result ≡ prefix_len (stays escapes) bytes.now }
{
    for (i, b) in bytes.iter().enumerate() {
        if !escapes.keeps(*b) {
            return i;
        }
    }
    bytes.len()
}

/// The run at the front of a form, and the escape behind it with the rest of the form.
pub(crate) fn cut(escapes: Escapes, form: &str) -> (&str, Option<(&str, &str)>)
    ensures { CutsTo escapes form.now result.0 result.1 }
{
    let (run, behind) = form.split_at(plain_len(escapes, form.as_bytes()));
    match behind.as_bytes().first() {
        Some(first) => (run, Some((escapes.escape(*first), behind.split_at(1).1))),
        None => (run, None),
    }
}
