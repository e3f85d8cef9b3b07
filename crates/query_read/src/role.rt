//! What a token is among triples.
ghost use Rattle.std.specs.Prelude.{◌≡◌};
ghost use Rattle.query_grammar.specs.Block as spec;
ghost use Rattle.query_grammar.specs.Signs as signs;
ghost use Rattle.query_read.specs.Seen.{role_seen};
ghost use Rattle.query_text.specs.Seen.{sign_seen};

use query_text::Sign;

#[derive(Clone, Copy)]
pub(crate) enum Role {
    /// A label, a number, or a truth value.
    Term,
    /// An IRI, or a prefixed name.
    Name,
    Variable,
    /// The word `a`.
    TypeOf,
    Text,
    LangTag,
    Carets,
    Open,
    Close,
    Stop,
    Comma,
    Semicolon,
    Other,
}

impl Role {
    pub(crate) fn of(sign: Sign) -> Role
        ensures { role_seen result ≡ signs.role_of (sign_seen sign) }
    {
        match sign {
            Sign::True | Sign::False | Sign::Label | Sign::Integer | Sign::Number => Role::Term,
            Sign::Iri | Sign::PnameNs | Sign::PnameLn => Role::Name,
            Sign::Variable => Role::Variable,
            Sign::TypeOf => Role::TypeOf,
            Sign::Text => Role::Text,
            Sign::LangTag => Role::LangTag,
            Sign::Carets => Role::Carets,
            Sign::Open => Role::Open,
            Sign::Close => Role::Close,
            Sign::Stop => Role::Stop,
            Sign::Comma => Role::Comma,
            Sign::Semicolon => Role::Semicolon,
            _ => Role::Other,
        }
    }

    /// Whether it stands for itself as a subject or an object.
    pub(crate) fn is_node(self) -> bool
        ensures { result ≡ spec.is_node (role_seen self) }
    {
        matches!(self, Role::Term | Role::Name | Role::Variable)
    }

    pub(crate) fn is_verb(self) -> bool
        ensures { result ≡ spec.is_verb (role_seen self) }
    {
        matches!(self, Role::Name | Role::Variable | Role::TypeOf)
    }
}
