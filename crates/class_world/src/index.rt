//! What a world knows of each class's members beforehand.
ghost use Rattle.std.specs.Prelude.{◌≡◌, ◌+◌, ◌<◌, [], length, IfOk, OnOk, IsTrue, map};
ghost use Rattle.std.specs.List.{list_any, list_all, AllByRecursion};
ghost use Rattle.class_read.specs.View.{field_content, method_content};
ghost use Rattle.std.specs.Option.{option_len};
ghost use Rattle.class_world.specs.Fields.{field_slot};
ghost use Rattle.class_world.specs.Linking.{has_few_members};
ghost use Rattle.class_world.specs.Resolve.{is_initialiser, is_initialised};
ghost use Rattle.class_world.specs.inner.Tables.{values_to};
ghost use Rattle.class_world.specs.inner.Index.{HasDistinctMembers, method_keys, field_keys, kept_counts, kept_row, IsIndex};

use crate::members::{field_names, method_names};
use crate::roster::Roster;
use class_read::{FieldView, MethodView};
use code_forms::class_base::KeySet;
use code_forms::list_views::Seq;
use std::alloc::{AllocError, Global};

/// Tables by the numbers of classes.
#[derive(Drop)]
pub(crate) struct MemberIndex<'a> {
    /// The names and descriptors of the methods that each class declares.
    pub(crate) methods: Seq<KeySet<'a>>,
    /// The names and descriptors of the fields that each class declares.
    pub(crate) fields: Seq<KeySet<'a>>,
    /// Whether each class declares a method `<clinit>`.
    pub(crate) initialised: Seq<bool>,
    /// How many of the first fields of each class are part of objects, from none of them on.
    pub(crate) kept: Seq<Seq<u32>>,
}

/// Some method is a static initialiser.
fn has_initialiser(methods: &[MethodView<'_>]) -> bool
    ensures { result ≡ list_any is_initialiser (map method_content methods.now) }
{
    for method in methods {
        if method.name == b"<clinit>".as_slice() {
            return true;
        }
    }
    false
}

impl<'a> Roster<'a> {
    fn method_names_of(&self, alloc: Global, class: usize) -> Result<KeySet<'a>, AllocError>
        requires within { class < length self.now.classes }
        requires differ { AllByRecursion HasDistinctMembers self.now.classes }
        ensures { IfOk result (λ names. names ≡ method_keys self.now.classes class) }
    {
        let view = self.classes.at(class);
        method_names(alloc, view.methods.as_slice())
    }

    fn field_names_of(&self, alloc: Global, class: usize) -> Result<KeySet<'a>, AllocError>
        requires within { class < length self.now.classes }
        requires differ { AllByRecursion HasDistinctMembers self.now.classes }
        ensures { IfOk result (λ names. names ≡ field_keys self.now.classes class) }
    {
        let view = self.classes.at(class);
        field_names(alloc, view.fields.as_slice())
    }

    fn is_initialised(&self, class: usize) -> bool
        requires { class < length self.now.classes }
        ensures { result ≡ is_initialised self.now.classes class }
    {
        let view = self.classes.at(class);
        has_initialiser(view.methods.as_slice())
    }

    /// How many of the first fields are part of objects, from none of them on.
    fn kept_counts(&self, alloc: Global, fields: &[FieldView<'_>]) -> Result<Seq<u32>, AllocError>
        requires { length fields.now < 65536 }
        ensures { IfOk result (λ counts. counts ≡ kept_counts self.now.classes (map field_content fields.now)) }
    {
        let mut counts = Seq::new(alloc);
        let mut kept: u32 = 0;
        counts.push(0)?;
        for field in fields {
            kept = self.kept_with(kept, field);
            counts.push(kept)?;
        }
        Ok(counts)
    }

    /// One more, where the field is part of objects.
    fn kept_with(&self, kept: u32, field: &FieldView<'_>) -> u32
        requires { kept < 65536 }
        ensures { result ≡ kept + option_len (field_slot self.now.classes (field_content field.now)) }
    {
        match self.field_slot(field) {
            Some(_) => kept + 1,
            None => kept,
        }
    }

    fn kept_row(&self, alloc: Global, class: usize) -> Result<Seq<u32>, AllocError>
        requires within { class < length self.now.classes }
        requires few { IsTrue (list_all has_few_members self.now.classes) }
        ensures { IfOk result (λ counts. counts ≡ kept_row self.now.classes class) }
    {
        let view = self.classes.at(class);
        self.kept_counts(alloc, view.fields.as_slice())
    }

    #[tactic(auto, using(crate::proofs::Tables::values_more), unfolding(crate::specs::inner::Tables::values_to))]
    fn put_method_table(&self, alloc: Global, table: &mut Seq<KeySet<'a>>) -> Result<(), AllocError>
        requires each { AllByRecursion HasDistinctMembers self.now.classes }
        requires empty { table.old ≡ [] }
        ensures { OnOk result (table.new ≡ values_to (method_keys self.now.classes) (length self.now.classes)) }
    {
        for class in 0..self.classes.len() {
            table.push(self.method_names_of(alloc, class)?)?;
        }
        Ok(())
    }

    #[tactic(auto, using(crate::proofs::Tables::values_more), unfolding(crate::specs::inner::Tables::values_to))]
    fn put_field_table(&self, alloc: Global, table: &mut Seq<KeySet<'a>>) -> Result<(), AllocError>
        requires each { AllByRecursion HasDistinctMembers self.now.classes }
        requires empty { table.old ≡ [] }
        ensures { OnOk result (table.new ≡ values_to (field_keys self.now.classes) (length self.now.classes)) }
    {
        for class in 0..self.classes.len() {
            table.push(self.field_names_of(alloc, class)?)?;
        }
        Ok(())
    }

    #[tactic(auto, using(crate::proofs::Tables::values_more), unfolding(crate::specs::inner::Tables::values_to))]
    fn put_initialised_table(&self, table: &mut Seq<bool>) -> Result<(), AllocError>
        requires { table.old ≡ [] }
        ensures { OnOk result (table.new ≡ values_to (is_initialised self.now.classes) (length self.now.classes)) }
    {
        for class in 0..self.classes.len() {
            table.push(self.is_initialised(class))?;
        }
        Ok(())
    }

    #[tactic(auto, using(crate::proofs::Tables::values_more), unfolding(crate::specs::inner::Tables::values_to))]
    fn put_kept_table(&self, alloc: Global, table: &mut Seq<Seq<u32>>) -> Result<(), AllocError>
        requires each { IsTrue (list_all has_few_members self.now.classes) }
        requires empty { table.old ≡ [] }
        ensures { OnOk result (table.new ≡ values_to (kept_row self.now.classes) (length self.now.classes)) }
    {
        for class in 0..self.classes.len() {
            table.push(self.kept_row(alloc, class)?)?;
        }
        Ok(())
    }
}

impl<'a> Roster<'a> {
    /// Puts the tables of the classes into an index that is empty before.
    fn put_index(&self, alloc: Global, index: &mut MemberIndex<'a>) -> Result<(), AllocError>
        requires differ { AllByRecursion HasDistinctMembers self.now.classes }
        requires few { IsTrue (list_all has_few_members self.now.classes) }
        requires methods { index.old.methods ≡ [] }
        requires fields { index.old.fields ≡ [] }
        requires initialised { index.old.initialised ≡ [] }
        requires kept { index.old.kept ≡ [] }
        ensures { OnOk result (IsIndex self.now.classes index.new) }
    {
        self.put_method_table(alloc, &mut index.methods)?;
        self.put_field_table(alloc, &mut index.fields)?;
        self.put_initialised_table(&mut index.initialised)?;
        self.put_kept_table(alloc, &mut index.kept)
    }
}

impl<'a> MemberIndex<'a> {
    /// Tables without rows.
    fn new(alloc: Global) -> MemberIndex<'a>
        ensures methods { result.methods ≡ [] }
        ensures fields { result.fields ≡ [] }
        ensures initialised { result.initialised ≡ [] }
        ensures kept { result.kept ≡ [] }
    {
        MemberIndex {
            methods: Seq::new(alloc),
            fields: Seq::new(alloc),
            initialised: Seq::new(alloc),
            kept: Seq::new(alloc),
        }
    }

    /// The tables of the classes of a roster.
    pub(crate) fn of(alloc: Global, roster: &Roster<'a>) -> Result<MemberIndex<'a>, AllocError>
        requires differ { AllByRecursion HasDistinctMembers roster.now.classes }
        requires few { IsTrue (list_all has_few_members roster.now.classes) }
        ensures { IfOk result (λ index. IsIndex roster.now.classes index) }
    {
        let mut index = MemberIndex::new(alloc);
        roster.put_index(alloc, &mut index)?;
        Ok(index)
    }
}
