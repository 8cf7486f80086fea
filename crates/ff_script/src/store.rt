//! What a table of reductions needs of a store: a function, and a value in each activation.

use ff_value::{ActId, Name, NoMemory, Val};
use std::alloc::Global;

/// The variable `f`, and one variable for each activation, whatever its name.
#[derive(Drop)]
pub struct Store {
    function: Val,
    values: Vec<Val>,
}

impl Store {
    /// A store of activation 0 alone, whose variable is 0.
    pub fn new(alloc: Global) -> Result<Store, NoMemory> {
        let mut values = Vec::new(alloc);
        values.push(Val::Num(0))?;
        Ok(Store {
            function: Val::Null,
            values,
        })
    }

    /// An equal store.
    pub fn fork(&self, alloc: Global) -> Result<Store, NoMemory> {
        let mut values = Vec::new(alloc);
        for value in &self.values {
            values.push(value.copy()?)?;
        }
        Ok(Store {
            function: self.function.copy()?,
            values,
        })
    }

    /// The value of a variable, if the activation has one.
    pub fn get(&self, act: ActId, name: &Name) -> Option<&Val> {
        if is_function(name) {
            return Some(&self.function);
        }
        self.values.get(act.0 as usize)
    }

    /// Puts the value of a variable.
    pub fn set(&mut self, act: ActId, name: &Name, value: &Val) -> Result<(), NoMemory> {
        if is_function(name) {
            self.function = value.copy()?;
            Ok(())
        } else {
            self.put(act, value)
        }
    }

    /// Puts the value of an activation, which may be the one after the last.
    pub fn put(&mut self, act: ActId, value: &Val) -> Result<(), NoMemory> {
        let at = act.0 as usize;
        if at < self.values.len() {
            self.values[at] = value.copy()?;
        } else if at == self.values.len() {
            self.values.push(value.copy()?)?;
        }
        Ok(())
    }
}

fn is_function(name: &Name) -> bool {
    matches!(name.as_bytes(), [b'f'])
}
