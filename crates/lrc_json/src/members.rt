//! Objects that are put together member by member, and lists. If memory runs out, that is told at the end.
ghost use Rattle.std.specs.Prelude.{◌≡◌, ◌↔◌, [], ◌∷◌, ◌++◌, IsTrue, None, IfOk, IsOkAnd, OnOk, map, string_bytes};
ghost use Rattle.serde_json.specs.Data as tree;
ghost use Rattle.serde_json.specs.View.{view};
ghost use Rattle.lrc_json.specs.Prelude.{AddedItems, AreMembersNow, BecameMembers, HasItems, HasMembers, IsListAdded, IsListPut, IsObjectAdded, IsObjectPut, IsValueAdded, IsValuePut, items_so_far, json_count, json_list, json_number, json_telling, members_so_far};

use serde_json::{Map, Value};
use std::alloc::{AllocError, Global};

/// The greatest number that each reader of JSON keeps exactly: 2^53 - 1.
const MOST_EXACT: u64 = (1 << 53) - 1;

/// An object that is put together.
#[derive(Drop)]
pub struct Members {
    alloc: Global,
    members: Map<String, Value>,
    fault: Option<AllocError>,
}

impl Members {
    /// An object without members.
    pub fn new(alloc: Global) -> Members
        ensures { HasMembers result tree.no_members }
    {
        Members {
            alloc,
            members: Map::new(alloc),
            fault: None,
        }
    }

    /// An object whose member `told` says what it tells.
    pub fn telling(alloc: Global, told: &str) -> Members
        ensures { HasMembers result (json_telling told.now) }
    {
        let mut members = Members::new(alloc);
        members.put_text("told", told);
        members
    }

    /// Adds a member, if there was memory for its value.
    fn put(&mut self, key: &str, value: Result<Value, AllocError>)
        ensures { IsValuePut self.old self.new key.now value }
    {
        let put = match value {
            Ok(value) => serde_json::put(&mut self.members, self.alloc, key, value),
            Err(error) => Err(error),
        };
        if let Err(error) = put {
            self.fault = Some(error);
        }
    }

    /// Adds a number.
    pub fn put_number(&mut self, key: &str, number: usize)
        ensures { BecameMembers self.old self.new (tree.put key.now (json_number number)) }
    {
        self.put(key, Ok(Value::from(number)));
    }

    /// Adds a word.
    pub fn put_word(&mut self, key: &str, word: u32)
        ensures { BecameMembers self.old self.new (tree.put key.now (json_number word)) }
    {
        self.put(key, Ok(Value::from(word)));
    }

    /// Adds a number of 64 bits.
    pub fn put_exact(&mut self, key: &str, number: u64)
        ensures { BecameMembers self.old self.new (tree.put key.now (json_number number)) }
    {
        self.put(key, Ok(Value::from(number)));
    }

    /// Adds a count: as a number, or as a text of its digits if it is greater than JSON's readers keep exactly.
    pub fn put_count(&mut self, key: &str, count: u64)
        ensures { BecameMembers self.old self.new (tree.put key.now (json_count count)) }
    {
        if count <= MOST_EXACT {
            self.put_exact(key, count);
        } else {
            let digits = format!(in self.alloc; "{count}");
            self.put_string(key, digits);
        }
    }

    /// Adds a text.
    pub fn put_text(&mut self, key: &str, text: &str)
        ensures { BecameMembers self.old self.new (tree.put key.now (tree.string text.now)) }
    {
        let value = Value::try_from_str(self.alloc, text);
        self.put(key, value);
    }

    /// Adds a text, if there was memory for it.
    pub fn put_string(&mut self, key: &str, text: Result<String, AllocError>)
        ensures { self.new.fault ≡ None → IsOkAnd text (λ s. AreMembersNow self.old self.new (tree.put key.now (tree.string (string_bytes s)))) }
    {
        self.put(key, text.map(Value::String));
    }

    /// Adds true or false.
    pub fn put_flag(&mut self, key: &str, flag: bool)
        ensures { BecameMembers self.old self.new (tree.put key.now (tree.boolean flag)) }
    {
        self.put(key, Ok(Value::Bool(flag)));
    }

    /// Adds null.
    pub fn put_null(&mut self, key: &str)
        ensures { BecameMembers self.old self.new (tree.put key.now tree.null) }
    {
        self.put(key, Ok(Value::Null));
    }

    /// Adds an object.
    pub fn put_object(&mut self, key: &str, object: Members)
        ensures { IsObjectPut self.old self.new key.now object }
    {
        self.put(key, object.into_value());
    }

    /// Adds a list.
    pub fn put_list(&mut self, key: &str, list: Values)
        ensures { IsListPut self.old self.new key.now list }
    {
        self.put(key, list.into_value());
    }

    /// The object. The only error is that memory ran out.
    pub(crate) fn into_value(self) -> Result<Value, AllocError>
        ensures { IfOk result (λ v. (self.fault ≡ None) × (view v ≡ tree.object (members_so_far self))) }
    {
        let Members { members, fault, .. } = self;
        match fault {
            None => Ok(Value::Object(members)),
            Some(error) => Err(error),
        }
    }
}

/// A list that is put together.
#[derive(Drop)]
pub struct Values {
    values: Vec<Value>,
    fault: Option<AllocError>,
}

/// Adds a value, if there was memory for it.
fn push_value(values: &mut Vec<Value>, value: Result<Value, AllocError>) -> Result<(), AllocError>
    ensures { OnOk result (IsOkAnd value (λ v. values.new.items ≡ values.old.items ++ v ∷ [])) }
{
    values.push(value?)?;
    Ok(())
}

impl Values {
    /// An empty list.
    pub fn new(alloc: Global) -> Values
        ensures { HasItems result [] }
    {
        Values {
            values: Vec::new(alloc),
            fault: None,
        }
    }

    /// These numbers.
    pub fn of_numbers(alloc: Global, numbers: &[usize]) -> Values
        ensures { HasItems result (map json_number numbers.now) }
    {
        let mut list = Values::new(alloc);
        for number in numbers {
            list.put(Ok(Value::from(*number)));
        }
        list
    }

    /// These words.
    pub fn of_words(alloc: Global, words: &[u32]) -> Values
        ensures { HasItems result (map json_number words.now) }
    {
        let mut list = Values::new(alloc);
        for word in words {
            list.put(Ok(Value::from(*word)));
        }
        list
    }

    /// Adds a value, if there was memory for it.
    fn put(&mut self, value: Result<Value, AllocError>)
        ensures { IsValueAdded self.old self.new value }
    {
        if let Err(error) = push_value(&mut self.values, value) {
            self.fault = Some(error);
        }
    }

    /// Adds an object.
    pub fn put_object(&mut self, object: Members)
        ensures { IsObjectAdded self.old self.new object }
    {
        self.put(object.into_value());
    }

    /// Adds a list.
    pub fn put_list(&mut self, list: Values)
        ensures { IsListAdded self.old self.new list }
    {
        self.put(list.into_value());
    }

    /// Adds null.
    pub fn put_null(&mut self)
        ensures { AddedItems self.old self.new (tree.null ∷ []) }
    {
        self.put(Ok(Value::Null));
    }

    /// Whether it has no value. If memory ran out it isn't empty: so who asks puts it, and that is told at the end.
    pub fn is_empty(&self) -> bool
        ensures { IsTrue result ↔ ((self.now.fault ≡ None) × (items_so_far self.now ≡ [])) }
    {
        self.values.is_empty() && self.fault.is_none()
    }

    /// The list. The only error is that memory ran out.
    fn into_value(self) -> Result<Value, AllocError>
        ensures { IfOk result (λ v. (self.fault ≡ None) × (view v ≡ json_list (items_so_far self))) }
    {
        let Values { values, fault } = self;
        match fault {
            None => Ok(Value::Array(values)),
            Some(error) => Err(error),
        }
    }
}
