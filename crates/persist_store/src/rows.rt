ghost use Rattle.std.specs.Prelude.{◌≡◌, ◌+◌, ◌<◌, ◌≤◌, ◌++◌, [], true, length, IfOk, IsTrue};
ghost use Rattle.rapid_model.specs.Paths.{has_sort};
ghost use Rattle.rapid_model.specs.Sorts.{has_values};
ghost use Rattle.rapid_values.specs.Equality.{same, same_nums};
ghost use Rattle.persist_store.specs.Rows.{IsWithin, grown, kind, length_in, nums_of, spliced, value_at, window, written};

use rapid_limits::MOST_AXES;
use rapid_model::{Sort, Text, Value};
use rapid_num::{Joints, Num};
use std::alloc::{AllocError, Global};
use std::marker::Model;

/// The values of all persistents of a cell: their nums in one row, their bools in another, their texts in a third.
/// Contracts see the three lists.
#[derive(Debug, Drop)]
pub(crate) struct Rows {
    nums: Vec<Num>,
    bools: Vec<bool>,
    texts: Vec<Text>,
}

impl Model for Rows {
    ghost use Rattle.persist_store.specs.Rows.{RowsData};

    ghost Value = { RowsData };

    ghost view = { λ r. record { nums = r.nums.items; bools = r.bools.items; texts = r.texts.items } };
}

impl Rows {
    pub(crate) fn new(alloc: Global) -> Rows
        ensures { result ≡ record { nums = []; bools = []; texts = [] } }
    {
        Rows {
            nums: Vec::new(alloc),
            bools: Vec::new(alloc),
            texts: Vec::new(alloc),
        }
    }

    /// How many items the row of a type has.
    pub(crate) fn len(&self, sort: Sort) -> usize
        ensures { result ≡ length_in self.now (kind sort) }
    {
        match sort {
            Sort::Bool => self.bools.len(),
            Sort::Text | Sort::Tasks => self.texts.len(),
            _ => self.nums.len(),
        }
    }

    /// Appends a value. Fails only if an allocation fails.
    pub(crate) fn push(&mut self, value: &Value) -> Result<(), AllocError>
        ensures { IfOk result (λ _. self.new ≡ grown self.old value.now) }
    {
        match value {
            Value::Num(number) => self.nums.push(*number)?,
            Value::Bool(truth) => self.bools.push(*truth)?,
            Value::Text(text) => self.texts.push(text.copy())?,
            Value::Rob(axes) => push_all(&mut self.nums, axes)?,
            Value::Ext(axes) => push_all(&mut self.nums, axes)?,
            Value::Target(joints) => push_all(&mut self.nums, &joints.axis)?,
            Value::Speed(nums) => push_all(&mut self.nums, nums)?,
        }
        Ok(())
    }

    /// The value of a type that begins at an index of its row and lies within it.
    pub(crate) fn value(&self, sort: Sort, at: usize) -> Value
        requires { IsWithin self.now sort at }
        ensures { result ≡ value_at self.now sort at }
    {
        match sort {
            Sort::Num => Value::Num(self.nums[at]),
            Sort::Bool => Value::Bool(self.bools[at]),
            Sort::Text | Sort::Tasks => Value::Text(self.texts[at].copy()),
            Sort::RobJoint => Value::Rob(array_of(&self.nums, at)),
            Sort::ExtJoint => Value::Ext(array_of(&self.nums, at)),
            Sort::JointTarget => Value::Target(Joints {
                axis: array_of(&self.nums, at),
            }),
            Sort::SpeedData => Value::Speed(array_of(&self.nums, at)),
            _ => Value::Bool(false),
        }
    }

    /// Whether that value has the form of another one and equals it in every part. Copies nothing.
    pub(crate) fn same(&self, sort: Sort, at: usize, value: &Value) -> bool
        requires within { IsWithin self.now sort at }
        requires sort { has_values sort ≡ true }
        ensures { result ≡ same (value_at self.now sort at) value.now }
    {
        match (sort, value) {
            (Sort::Num, Value::Num(number)) => self.nums[at].thousandths() == number.thousandths(),
            (Sort::Bool, Value::Bool(truth)) => self.bools[at] == *truth,
            (Sort::Text | Sort::Tasks, Value::Text(text)) => self.texts[at].bytes() == text.bytes(),
            (Sort::RobJoint, Value::Rob(axes)) => are_same(&self.nums[at..at + 6], axes),
            (Sort::ExtJoint, Value::Ext(axes)) => are_same(&self.nums[at..at + 6], axes),
            (Sort::JointTarget, Value::Target(joints)) => {
                are_same(&self.nums[at..at + MOST_AXES], &joints.axis)
            }
            (Sort::SpeedData, Value::Speed(nums)) => are_same(&self.nums[at..at + 4], nums),
            _ => false,
        }
    }

    /// Writes a value of a type over the one at an index of its row.
    #[tactic(auto, using(crate::proofs::Splices::set_spliced))]
    pub(crate) fn put(&mut self, sort: Sort, at: usize, value: &Value)
        requires within { IsWithin self.old sort at }
        requires sort { IsTrue (has_sort sort value.now) }
        ensures { self.new ≡ written self.old at value.now }
    {
        match value {
            Value::Num(number) => self.nums[at] = *number,
            Value::Bool(truth) => self.bools[at] = *truth,
            Value::Text(text) => self.texts[at] = text.copy(),
            Value::Rob(axes) => put_all(&mut self.nums, at, axes),
            Value::Ext(axes) => put_all(&mut self.nums, at, axes),
            Value::Target(joints) => put_all(&mut self.nums, at, &joints.axis),
            Value::Speed(nums) => put_all(&mut self.nums, at, nums),
        }
    }
}

fn push_all(row: &mut Vec<Num>, nums: &[Num]) -> Result<(), AllocError>
    ensures { IfOk result (λ _. row.new.items ≡ row.old.items ++ nums.now) }
{
    for number in nums {
        row.push(*number)?;
    }
    Ok(())
}

/// That many nums from an index on.
fn array_of<const COUNT: usize>(row: &[Num], at: usize) -> [Num; COUNT]
    requires some { 0 < COUNT }
    requires within { at + COUNT ≤ length row.now }
    ensures { result ≡ window at COUNT row.now }
{
    let mut nums = [row[at]; COUNT];
    nums.copy_from_slice(&row[at..at + COUNT]);
    nums
}

fn put_all(row: &mut [Num], at: usize, nums: &[Num])
    requires { at + length nums.now ≤ length row.old }
    ensures { row.new ≡ spliced row.old at nums.now }
{
    let past = at + nums.len();
    row[at..past].copy_from_slice(nums);
}

fn are_same(a: &[Num], b: &[Num]) -> bool
    ensures { result ≡ same_nums a.now b.now }
{
    a == b
}
