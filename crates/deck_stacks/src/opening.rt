//! Where a token leads from a stack: the rules on top are opened, in each way, until a token of its kind stands there.

ghost use Rattle.std.specs.Prelude.{◌≡◌, ◌++◌, ◌*◌, ◌∷◌, [], length, map, ℕ, List, IfOk, OnOk, if◌then◌else◌};
ghost use Rattle.std.specs.Bool.{OnTrue};
ghost use Rattle.std.specs.List.{flat_map};
ghost use Rattle.deck_grammar.specs.Rules as r;
ghost use Rattle.deck_grammar.specs.Working.Numbers.{same_kind};
ghost use Rattle.deck_stacks.specs.Working.Deriving.{derive, derive_all};
ghost use Rattle.deck_stacks.specs.Parts.{rule_of, left_of, part_of};

use crate::part::{Left, Part, Rule};
use crate::stack::Stack;
use crate::table::alternatives;
use deck_grammar::{Keyword, Kind, Sign, is_same};
use std::alloc::{AllocError, Global};

/// A token whose ways are looked for.
#[derive(Clone, Copy)]
pub struct Taking {
    pub alloc: Global,
    pub kind: Kind,
}

impl Taking {
    // Whether no way begins with this part.
    #[tactic(auto, using(crate::proofs::Ways::passing))]
    fn passes(self, part: Part) -> bool
        ensures { OnTrue result ((n : ℕ) (more : List r.Part) → derive n self.kind (part_of part ∷ more) ≡ []) }
    {
        match part.token() {
            Some(kind) => !is_same(kind, self.kind),
            None => false,
        }
    }

    // Whether no way begins with these parts, as their first tells.
    fn passes_all(self, parts: &[Part]) -> bool
        ensures { OnTrue result ((n : ℕ) (more : List r.Part)
            → derive n self.kind (map part_of parts.now ++ more) ≡ []) }
    {
        match parts {
            [] => false,
            [first, ..] => self.passes(*first),
        }
    }

    // What is left behind a token on top of the stack, if it is of the kind.
    #[tactic(auto, using(crate::proofs::Ways::one_way, crate::proofs::Ways::no_way_at_all))]
    fn take(self, other: Kind, stack: &Stack, found: &mut Vec<Stack>) -> Result<(), AllocError>
        ensures { OnOk result (found.new.items
            ≡ found.old.items ++ (if same_kind other self.kind then stack.now ∷ [] else [])) }
    {
        if is_same(other, self.kind) {
            found.push(stack.copy(self.alloc)?)?;
        }
        Ok(())
    }

    /// The stacks to which the token leads from all of these.
    pub fn derive_all(self, all: &[Stack]) -> Result<Vec<Stack>, AllocError>
        ensures { IfOk result (λ found. found.items ≡ derive_all self.kind all.now) }
    {
        let mut found = Vec::new(self.alloc);
        for stack in all {
            self.derive_from(stack, &mut found)?;
        }
        Ok(found)
    }

    // Adds the stacks to which the token leads from one.
    fn derive_from(self, stack: &Stack, found: &mut Vec<Stack>) -> Result<(), AllocError>
        ensures { OnOk result (found.new.items ≡ found.old.items ++ derive (4 * length stack.now) self.kind stack.now) }
    {
        let mut from = stack.copy(self.alloc)?;
        let turns = 4 * from.len() as u128;
        self.derive(&mut from, found, turns)
    }

    // Adds the stacks to which the token leads from a stack, whose rules are opened no more than so often. The stack
    // stays as it was.
    #[cycle(opening)]
    fn derive(
        self,
        stack: &mut Stack,
        found: &mut Vec<Stack>,
        turns: u128,
    ) -> Result<(), AllocError>
        ensures same { OnOk result (stack.new ≡ stack.old) }
        ensures found { OnOk result (found.new.items ≡ found.old.items ++ derive turns self.kind stack.old) }
    {
        match stack.pop() {
            Some(part) => {
                self.behind(part, stack, found, turns)?;
                stack.push(part)
            }
            None => Ok(()),
        }
    }

    // The same, where a part stands on top of the stack.
    #[cycle(opening)]
    fn behind(
        self,
        part: Part,
        stack: &mut Stack,
        found: &mut Vec<Stack>,
        turns: u128,
    ) -> Result<(), AllocError>
        ensures same { OnOk result (stack.new ≡ stack.old) }
        ensures found { OnOk result (found.new.items
            ≡ found.old.items ++ derive turns self.kind (part_of part ∷ stack.old)) }
    {
        match part {
            Part::Word(word) => self.take(Kind::Keyword(word), stack, found),
            Part::Sign(sign) => self.take(Kind::Sign(sign), stack, found),
            Part::Token(kind) => self.take(kind, stack, found),
            Part::Rule(rule) => self.opened(rule, stack, found, turns),
            Part::Options(left) => self.options(left, stack, found, turns),
        }
    }

    // The same, where a rule stands on top of the stack.
    #[cycle(opening)]
    fn opened(
        self,
        rule: Rule,
        stack: &mut Stack,
        found: &mut Vec<Stack>,
        turns: u128,
    ) -> Result<(), AllocError>
        ensures same { OnOk result (stack.new ≡ stack.old) }
        ensures found { OnOk result (found.new.items
            ≡ found.old.items ++ derive turns self.kind (r.rule (rule_of rule) ∷ stack.old)) }
    {
        if turns == 0 {
            return Ok(());
        }
        self.each(alternatives(rule), stack, found, turns - 1)
    }

    // The same, where each of some alternatives stands on top of the stack.
    #[cycle(opening)]
    fn each(
        self,
        all: &[&[Part]],
        stack: &mut Stack,
        found: &mut Vec<Stack>,
        turns: u128,
    ) -> Result<(), AllocError>
        ensures same { OnOk result (stack.new ≡ stack.old) }
        ensures found { OnOk result (found.new.items
            ≡ found.old.items
            ++ flat_map (λ it. derive turns self.kind (it ++ stack.old)) (map (λ it. map part_of it.now) all.now)) }
    {
        for parts in all {
            self.one(parts, stack, found, turns)?;
        }
        Ok(())
    }

    // The same, where one alternative stands on top of the stack.
    #[cycle(opening)]
    fn one(
        self,
        parts: &[Part],
        stack: &mut Stack,
        found: &mut Vec<Stack>,
        turns: u128,
    ) -> Result<(), AllocError>
        ensures same { OnOk result (stack.new ≡ stack.old) }
        ensures found { OnOk result (found.new.items
            ≡ found.old.items ++ derive turns self.kind (map part_of parts.now ++ stack.old)) }
    {
        if self.passes_all(parts) {
            return Ok(());
        }
        stack.push_all(parts)?;
        self.derive(stack, found, turns)?;
        stack.cut(parts.len());
        Ok(())
    }

    // The same, where the alternative is there.
    #[cycle(opening)]
    fn one_if(
        self,
        is: bool,
        parts: &[Part],
        stack: &mut Stack,
        found: &mut Vec<Stack>,
        turns: u128,
    ) -> Result<(), AllocError>
        ensures same { OnOk result (stack.new ≡ stack.old) }
        ensures found { OnOk result (found.new.items
            ≡ found.old.items ++ (if is then derive turns self.kind (map part_of parts.now ++ stack.old) else [])) }
    {
        if is {
            self.one(parts, stack, found, turns)
        } else {
            Ok(())
        }
    }

    // The same, where each of some alternatives that is there stands on top of the stack.
    #[cycle(opening)]
    fn each_if(
        self,
        all: &[(bool, &[Part])],
        stack: &mut Stack,
        found: &mut Vec<Stack>,
        turns: u128,
    ) -> Result<(), AllocError>
        ensures same { OnOk result (stack.new ≡ stack.old) }
        ensures found { OnOk result (found.new.items ≡ found.old.items
            ++ flat_map (λ it. if it.0 then derive turns self.kind (map part_of it.1.now ++ stack.old) else [])
            all.now) }
    {
        for it in all {
            self.one_if(it.0, it.1, stack, found, turns)?;
        }
        Ok(())
    }

    // The same, where options stand on top of the stack.
    #[cycle(opening)]
    fn options(
        self,
        left: Left,
        stack: &mut Stack,
        found: &mut Vec<Stack>,
        turns: u128,
    ) -> Result<(), AllocError>
        ensures same { OnOk result (stack.new ≡ stack.old) }
        ensures found { OnOk result (found.new.items
            ≡ found.old.items ++ derive turns self.kind (r.rule (r.options (left_of left)) ∷ stack.old)) }
    {
        if turns == 0 {
            return Ok(());
        }
        let abut = [
            Part::Word(Keyword::Abut),
            Part::Sign(Sign::Less),
            Part::Rule(Rule::Value),
            Part::Options(Left {
                abut: false,
                ..left
            }),
        ];
        let no_singular = Part::Options(Left {
            singular: false,
            ..left
        });
        let no_metric = Part::Options(Left {
            metric: false,
            ..left
        });
        let no_gap = Part::Options(Left { gap: false, ..left });
        let no_region = Part::Options(Left {
            region: false,
            ..left
        });
        let all: [(bool, &[Part]); 8] = [
            (true, &[]),
            (left.abut, &abut),
            (left.singular, &[Part::Word(Keyword::Singular), no_singular]),
            (left.metric, &[Part::Word(Keyword::Opposite), no_metric]),
            (left.metric, &[Part::Word(Keyword::Square), no_metric]),
            (left.gap, &[Part::Word(Keyword::Notch), no_gap]),
            (left.gap, &[Part::Word(Keyword::Space), no_gap]),
            (left.region, &[Part::Word(Keyword::Region), no_region]),
        ];
        self.each_if(&all, stack, found, turns - 1)?;
        Ok(())
    }
}
