//! The rules that the classes of a world keep.
ghost use Rattle.std.specs.Prelude.{◌≡◌, ◌<◌, false, not, length, map};
ghost use Rattle.std.specs.Option.{option_map_or};
ghost use Rattle.std.specs.List.{list_any};
ghost use Rattle.class_world.specs.World.{is_above, is_interface_class, super_of, interfaces_of};
ghost use Rattle.class_world.specs.Linking.{Refuses, first_broken, first_missing, missing_interface, missing_name, rule_at};
ghost use Rattle.class_world.specs.Linking.{missing_super, cyclic_hierarchy, bad_super, default_method, is_default};
ghost use Rattle.class_world.specs.Linking.{is_bad_superclass, rule_of};
ghost use Rattle.class_read.specs.View.{method_content};
ghost use Rattle.class_world.specs.inner.Tables.{above_table};

use crate::fault::LinkFault;
use crate::named::is_array_interface;
use crate::roster::Roster;
use class_read::MethodView;
use code_forms::class_base::{ABSTRACT, INTERFACE, STATIC, has_flag};
use code_forms::list_views::Seq;
use std::alloc::Global;

/// A rule of linking, beside that of the names.
#[derive(Clone, Copy)]
pub(crate) enum LinkRule {
    MissingSuper,
    CyclicHierarchy,
    BadSuper,
    DefaultMethod,
}

/// The classes, and for each the marks of those above it.
#[derive(Drop)]
pub(crate) struct Hierarchy<'w, 'a> {
    pub(crate) roster: &'w Roster<'a>,
    pub(crate) above: &'w [Seq<bool>],
    ghost marked: { above.now ≡ above_table roster.now.classes },
}

impl<'w, 'a> Hierarchy<'w, 'a> {
    /// Whether class `b` is above class `a`.
    pub(crate) fn is_above(&self, a: usize, b: usize) -> bool
        requires a { a < length self.now.roster.now.classes }
        requires b { b < length self.now.roster.now.classes }
        ensures { result ≡ is_above self.now.roster.now.classes a b }
    {
        *self.above[a].at(b)
    }

    /// The name is that of a class.
    fn present(&self, alloc: Global, name: &[u8]) -> Result<(), LinkFault>
        ensures { Refuses result (missing_name self.now.roster.now.classes name.now) }
    {
        if self.roster.number_of(name).is_none() {
            return Err(LinkFault::MissingClass {
                name: Seq::from_slice(alloc, name)?,
            });
        }
        Ok(())
    }

    /// The name of an interface is that of a class, or that of an interface of arrays.
    #[tactic(auto, unfolding(crate::specs::Linking::missing_interface))]
    fn interface_present(&self, alloc: Global, name: &[u8]) -> Result<(), LinkFault>
        ensures { Refuses result (missing_interface self.now.roster.now.classes name.now) }
    {
        if is_array_interface(name) {
            return Ok(());
        }
        self.present(alloc, name)
    }

    /// The names of interfaces are those of classes, or of interfaces of arrays.
    fn all_present(&self, alloc: Global, names: &[&[u8]]) -> Result<(), LinkFault>
        ensures { Refuses result (first_missing self.now.roster.now.classes (map (λ r. r.now) names.now)) }
    {
        for name in names {
            self.interface_present(alloc, *name)?;
        }
        Ok(())
    }

    /// Its superclass and superinterfaces are there. Interfaces of arrays are passed over.
    fn keeps_missing_super(&self, alloc: Global, class: usize) -> Result<(), LinkFault>
        requires { class < length self.now.roster.now.classes }
        ensures { Refuses result (rule_at (missing_super self.now.roster.now.classes) self.now.roster.now.classes class) }
    {
        let view = self.roster.classes.at(class);
        if class != 0 {
            self.present(alloc, view.super_name)?;
        }
        self.all_present(alloc, view.interfaces.as_slice())
    }

    /// It is not above itself.
    fn keeps_cyclic_hierarchy(&self, alloc: Global, class: usize) -> Result<(), LinkFault>
        requires { class < length self.now.roster.now.classes }
        ensures { Refuses result (rule_at (cyclic_hierarchy self.now.roster.now.classes) self.now.roster.now.classes class) }
    {
        let view = self.roster.classes.at(class);
        if self.is_above(class, class) {
            return Err(LinkFault::CyclicHierarchy {
                name: Seq::from_slice(alloc, view.name)?,
            });
        }
        Ok(())
    }

    /// The superclass is an interface, or it is another than Object and the class with these flags is an interface.
    fn is_bad_superclass(&self, flags: u16, over: Option<u32>) -> bool
        ensures { result ≡ option_map_or (is_bad_superclass self.now.roster.now.classes flags) over false }
    {
        match over {
            Some(class) => self.roster.is_interface(class)
                || (has_flag(flags, INTERFACE) && class != 0),
            None => false,
        }
    }

    /// Some of the classes is no interface.
    fn has_other_kind(&self, classes: &[u32]) -> bool
        ensures { result ≡ list_any (λ k. not (is_interface_class self.now.roster.now.classes k)) classes.now }
    {
        for class in classes {
            if !self.roster.is_interface(*class) {
                return true;
            }
        }
        false
    }

    /// Some superinterface of the class is no interface.
    fn has_bad_interface(&self, class: usize) -> bool
        ensures { result ≡ list_any (λ k. not (is_interface_class self.now.roster.now.classes k))
            (interfaces_of self.now.roster.now.classes class) }
    {
        self.has_other_kind(self.roster.interfaces_once(class))
    }

    /// Its superclass and superinterfaces are of the right kind.
    fn keeps_bad_super(&self, alloc: Global, class: usize) -> Result<(), LinkFault>
        requires { class < length self.now.roster.now.classes }
        ensures { Refuses result (rule_at (bad_super self.now.roster.now.classes) self.now.roster.now.classes class) }
    {
        let view = self.roster.classes.at(class);
        let bad_superclass = self.is_bad_superclass(view.flags, self.roster.super_of(class));
        let bad_interface = self.has_bad_interface(class);
        if bad_superclass || bad_interface {
            return Err(LinkFault::BadSuper {
                name: Seq::from_slice(alloc, view.name)?,
            });
        }
        Ok(())
    }

    /// A method of an interface that is neither abstract nor static.
    fn keeps_default_method(&self, alloc: Global, class: usize) -> Result<(), LinkFault>
        requires { class < length self.now.roster.now.classes }
        ensures { Refuses result (rule_at (default_method self.now.roster.now.classes) self.now.roster.now.classes class) }
    {
        let view = self.roster.classes.at(class);
        if has_flag(view.flags, INTERFACE) && has_default(view.methods.as_slice()) {
            return Err(LinkFault::DefaultMethod {
                name: Seq::from_slice(alloc, view.name)?,
            });
        }
        Ok(())
    }

    fn keeps_at(&self, alloc: Global, rule: LinkRule, class: usize) -> Result<(), LinkFault>
        requires { class < length self.now.roster.now.classes }
        ensures { Refuses result (rule_at (rule_of rule self.now.roster.now.classes) self.now.roster.now.classes class) }
    {
        match rule {
            LinkRule::MissingSuper => self.keeps_missing_super(alloc, class),
            LinkRule::CyclicHierarchy => self.keeps_cyclic_hierarchy(alloc, class),
            LinkRule::BadSuper => self.keeps_bad_super(alloc, class),
            LinkRule::DefaultMethod => self.keeps_default_method(alloc, class),
        }
    }

    /// Every class keeps the rule.
    ///
    /// # Errors
    ///
    /// What the rule says of the first class that breaks it, or want of memory.
    pub(crate) fn keeps(&self, alloc: Global, rule: LinkRule) -> Result<(), LinkFault>
        ensures { Refuses result (first_broken (rule_of rule self.now.roster.now.classes) 0 self.now.roster.now.classes) }
    {
        for class in 0..self.roster.classes.len() {
            self.keeps_at(alloc, rule, class)?;
        }
        Ok(())
    }
}

/// Whether a method is neither abstract nor static.
fn has_default(methods: &[MethodView<'_>]) -> bool
    ensures { result ≡ list_any is_default (map method_content methods.now) }
{
    for method in methods {
        if !has_flag(method.flags, ABSTRACT) && !has_flag(method.flags, STATIC) {
            return true;
        }
    }
    false
}
