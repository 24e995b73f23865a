// The fourteen types by kind, after `Type` of the Rust. What depends on a type's kind names all fourteen and has no arm for the
// rest, so that a type added here is refused in each such place until it is named there.
#![tactic(auto)]

ghost use Rattle.std.specs.Prelude.{◌≡◌};
ghost use Rattle.type_kinds.specs.Tags.{decode_type};
ghost use Rattle.type_kinds.specs.Types.{is_integer, integer_or_missing, default_kind};

// The types, in the order of their tags. An array's length and element and a named type's name are not part of the kind.
#[derive(Clone, Copy, Debug, PartialEq, Eq)]
pub enum TypeKind {
    Bool,
    Int8,
    Int16,
    Int32,
    Int64,
    Uint8,
    Uint16,
    Uint32,
    Uint64,
    Float32,
    Float64,
    Char,
    Array,
    Named,
}

// The literals, in the order of their tags.
#[derive(Clone, Copy, Debug, PartialEq, Eq)]
pub enum LiteralKind {
    Bool,
    Int,
    Float,
    Char,
}

// What a type's default is, where it has one: the literal of this kind with value 0 or false, or the first variant of the enum that
// the type names.
#[derive(Clone, Copy, Debug, PartialEq, Eq)]
pub enum DefaultKind {
    Literal(LiteralKind),
    FirstVariant,
}

// The only place where a type is made from a number: the type that a tag byte stands for, if it stands for one.
#[tactic(auto, unfolding(crate::specs::Tags::decode_type, crate::specs::Tags::types_by_tag))]
pub fn decode_type(tag: usize) -> Option<TypeKind>
    ensures { result ≡ decode_type tag }
{
    match tag {
        0 => Some(TypeKind::Bool),
        1 => Some(TypeKind::Int8),
        2 => Some(TypeKind::Int16),
        3 => Some(TypeKind::Int32),
        4 => Some(TypeKind::Int64),
        5 => Some(TypeKind::Uint8),
        6 => Some(TypeKind::Uint16),
        7 => Some(TypeKind::Uint32),
        8 => Some(TypeKind::Uint64),
        9 => Some(TypeKind::Float32),
        10 => Some(TypeKind::Float64),
        11 => Some(TypeKind::Char),
        12 => Some(TypeKind::Array),
        13 => Some(TypeKind::Named),
        _ => None,
    }
}

// Whether a type is an integer type.
#[tactic(auto, unfolding(crate::specs::Types::is_integer))]
pub fn is_integer(kind: TypeKind) -> bool
    ensures { result ≡ is_integer kind }
{
    match kind {
        TypeKind::Int8
        | TypeKind::Int16
        | TypeKind::Int32
        | TypeKind::Int64
        | TypeKind::Uint8
        | TypeKind::Uint16
        | TypeKind::Uint32
        | TypeKind::Uint64 => true,
        TypeKind::Bool
        | TypeKind::Float32
        | TypeKind::Float64
        | TypeKind::Char
        | TypeKind::Array
        | TypeKind::Named => false,
    }
}

// The integer literal of an integer type, none of another: the Rust's arm with the test, and the one after it.
#[tactic(auto, unfolding(crate::specs::Types::integer_or_missing))]
fn integer_or_missing(kind: TypeKind) -> Option<DefaultKind>
    ensures { result ≡ integer_or_missing kind }
{
    if is_integer(kind) {
        Some(DefaultKind::Literal(LiteralKind::Int))
    } else {
        None
    }
}

// The default of a type; integer types, and arrays, which have none, are told apart by the test.
#[tactic(auto, unfolding(crate::specs::Types::default_kind, crate::specs::Types::integer_or_missing, crate::specs::Types::is_integer))]
pub fn default_kind(kind: TypeKind) -> Option<DefaultKind>
    ensures { result ≡ default_kind kind }
{
    match kind {
        TypeKind::Bool => Some(DefaultKind::Literal(LiteralKind::Bool)),
        TypeKind::Float32 | TypeKind::Float64 => Some(DefaultKind::Literal(LiteralKind::Float)),
        TypeKind::Char => Some(DefaultKind::Literal(LiteralKind::Char)),
        TypeKind::Int8
        | TypeKind::Int16
        | TypeKind::Int32
        | TypeKind::Int64
        | TypeKind::Uint8
        | TypeKind::Uint16
        | TypeKind::Uint32
        | TypeKind::Uint64
        | TypeKind::Array => integer_or_missing(kind),
        TypeKind::Named => Some(DefaultKind::FirstVariant),
    }
}
