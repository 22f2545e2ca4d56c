// The table of children: which kinds there are, and which children each may have.
#![tactic(auto, using(std::proofs::lemmas::Bool::Decides::nat_tests), unfolding(crate::specs::Children::is_kind, crate::specs::Children::is_chain, crate::specs::Children::is_type, crate::specs::Children::is_binding, crate::specs::Children::allows, crate::specs::Children::row_of, crate::specs::Children::slot, crate::specs::Children::deepens, classes::specs::Class::in_range))]

ghost use Rattle.std.specs.Prelude.{◌≡◌, ◌≤◌};
ghost use Rattle.saved.specs.Children.{is_kind, is_type, allows, row as table_row, row_of, slot};
ghost use Rattle.saved.specs.code.Scan.{deepening};

use crate::{Allowed, Row};
use records::kinds::{
    REC_ADDRESS, REC_ADDRESS_VALUE, REC_BIND_LIST, REC_BRACKETS, REC_BYTE_STRING, REC_FIELD,
    REC_FUNCTION, REC_LAMBDA_BIND_LIST, REC_NAME, REC_ONE_PART, REC_PAIR, REC_REF, REC_REF_MUT,
    REC_STRUCT, REC_STRUCT_TYPED, REC_THREE_PART, REC_TUPLE, REC_TWO_PART, REC_TYPE, REC_VARIABLE,
};

// Whether a number is a record's kind.
pub(crate) fn is_kind(k: usize) -> bool
    ensures { result ≡ is_kind k }
{
    matches!(
        k,
        REC_NAME..=REC_PAIR
            | REC_TYPE..=REC_BRACKETS
            | REC_VARIABLE..=REC_STRUCT_TYPED
            | REC_FIELD..=REC_LAMBDA_BIND_LIST
            | REC_ADDRESS_VALUE..=REC_BYTE_STRING
    )
}

// Whether a number is the kind of a type.
pub(crate) fn is_type(k: usize) -> bool
    ensures { result ≡ is_type k }
{
    matches!(k, REC_TYPE..=REC_BRACKETS)
}

// Whether a child of kind k may stand where these are allowed; `field`: a field stands before it.
pub(crate) fn is_allowed(a: Allowed, field: bool, k: usize) -> bool
    ensures { result ≡ allows a field k }
{
    match a {
        Allowed::NoChild => false,
        Allowed::FirstPart => matches!(k, REC_NAME | REC_ADDRESS),
        Allowed::NamePart => k == REC_NAME,
        Allowed::PairPart => k == REC_PAIR,
        Allowed::AnyChain => matches!(k, REC_ONE_PART..=REC_THREE_PART),
        Allowed::AnyType => is_type(k),
        Allowed::AnyBinding => matches!(k, REC_VARIABLE..=REC_STRUCT_TYPED),
        Allowed::AnyField => k == REC_FIELD,
        Allowed::TypesThenFields => k == REC_FIELD || !field && is_type(k),
    }
}

// 1 where a record of kind k is a level deeper than its parent, whatever that is, else 0.
pub(crate) fn deepening_of(k: usize) -> usize
    ensures value { result ≡ deepening k }
    ensures few { result ≤ 1 }
{
    usize::from(is_type(k) || k == REC_FIELD)
}

impl Row {
    fn new(first: Allowed, second: Allowed, later: Allowed, least: usize) -> Row
        ensures { result ≡ table_row first second later least }
    {
        Row {
            first,
            second,
            later,
            least,
        }
    }

    // The row of a parent's kind.
    pub(crate) fn of(kind: usize) -> Row
        ensures { result ≡ row_of kind }
    {
        use Allowed::{
            AnyBinding, AnyChain, AnyField, AnyType, FirstPart, NamePart, NoChild, PairPart,
            TypesThenFields,
        };
        match kind {
            REC_TWO_PART | REC_PAIR => Row::new(FirstPart, NamePart, NoChild, 2),
            REC_THREE_PART => Row::new(PairPart, NamePart, NoChild, 2),
            REC_TYPE => Row::new(AnyChain, AnyType, AnyType, 1),
            REC_REF | REC_REF_MUT | REC_BRACKETS => Row::new(AnyType, NoChild, NoChild, 1),
            REC_FUNCTION => Row::new(AnyType, AnyType, AnyType, 1),
            REC_TUPLE => Row::new(AnyType, AnyType, AnyType, 2),
            REC_STRUCT => Row::new(AnyChain, AnyField, AnyField, 1),
            REC_STRUCT_TYPED => Row::new(AnyChain, TypesThenFields, TypesThenFields, 1),
            REC_FIELD => Row::new(NamePart, AnyBinding, NoChild, 2),
            REC_BIND_LIST | REC_LAMBDA_BIND_LIST => {
                Row::new(AnyBinding, AnyBinding, AnyBinding, 0)
            }
            REC_ADDRESS_VALUE => Row::new(FirstPart, NoChild, NoChild, 1),
            _ => Row::new(NoChild, NoChild, NoChild, 0),
        }
    }

    // What the row has for the child of an index.
    pub(crate) fn slot(self, index: usize) -> Allowed
        ensures { result ≡ slot self index }
    {
        match index {
            0 => self.first,
            1 => self.second,
            _ => self.later,
        }
    }
}
