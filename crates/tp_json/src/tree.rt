//! A value of a JSON text, and what is found in it.
ghost use Rattle.std.specs.Prelude.{◌≡◌, option_and_then, option_map};
ghost use Rattle.serde_json.specs.Find.{as_array, as_i64, as_number, as_object, as_str, get, get_member};
ghost use Rattle.tp_json.specs.View.{items_view, members_view, view};

use crate::number::Number;

/// A value. Its texts are parts of the text that was read, or of what was unescaped of it.
#[derive(Drop)]
pub enum Json<'a> {
    Null,
    Bool(bool),
    Number(Number),
    String(&'a str),
    Array(Vec<Json<'a>>),
    /// The members as they stand in the text: of a key that comes twice the last one counts.
    Object(Vec<(&'a str, Json<'a>)>),
}

impl<'a> Json<'a> {
    /// The text that the value is.
    pub fn as_str(&self) -> Option<&'a str>
        ensures { option_map (λ s. s.now) result ≡ as_str (view self.now) }
    {
        if let Json::String(text) = self {
            Some(*text)
        } else {
            None
        }
    }

    /// The whole number that the value is, where it fits 64 bits with its sign.
    pub fn as_i64(&self) -> Option<i64>
        ensures { result ≡ option_and_then as_i64 (as_number (view self.now)) }
    {
        if let Json::Number(number) = self {
            number.as_i64()
        } else {
            None
        }
    }

    /// The members of the array that the value is.
    pub fn as_array(&self) -> Option<&[Json<'a>]>
        ensures { option_map (λ v. items_view v.now) result ≡ as_array (view self.now) }
    {
        if let Json::Array(items) = self {
            Some(items.as_slice())
        } else {
            None
        }
    }

    /// The members of the object that the value is, as they stand in the text.
    pub fn as_object(&self) -> Option<&[(&'a str, Json<'a>)]>
        ensures { option_map (λ m. members_view m.now) result ≡ as_object (view self.now) }
    {
        if let Json::Object(members) = self {
            Some(members.as_slice())
        } else {
            None
        }
    }

    /// The value at a key, where the value is an object that has it.
    pub fn get(&self, key: &str) -> Option<&Json<'a>>
        ensures { option_map (λ v. view v.now) result ≡ get key.now (view self.now) }
    {
        if let Json::Object(members) = self {
            last_of(members.as_slice(), key)
        } else {
            None
        }
    }
}

/// The last value of a key.
fn last_of<'v, 'a>(members: &'v [(&'a str, Json<'a>)], key: &str) -> Option<&'v Json<'a>>
    ensures { option_map (λ v. view v.now) result ≡ get_member key.now (members_view members.now) }
{
    let mut left = members.len();
    while left > 0 {
        left -= 1;
        let member = &members[left];
        if member.0 == key {
            return Some(&member.1);
        }
    }
    None
}
