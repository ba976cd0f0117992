//! Laws about how rules are read and which rule keeps a map.

ghost use Rattle.cell_cats.specs.ItemLaw.{WordsAreReadAsSpelledRuleItems};
ghost use Rattle.cell_cats.specs.RuleReading.{LinesAddRulesTheySpell};
ghost use Rattle.cell_cats.specs.RulesLaw.{StarRuleKeepsRows, RuleLineExamples};

/// The rule `* = *` keeps the rows of every map.
pub fn star_rule_keeps_rows()
    ensures { StarRuleKeepsRows }
{}

/// Worked examples of rule lines.
pub fn rule_line_examples()
    ensures { RuleLineExamples }
{}

/// Words are read as items if and only if they spell these items, one after another. A line adds a rule if and only if
/// it spells that rule.
pub fn lines_add_rules_they_spell()
    ensures items { WordsAreReadAsSpelledRuleItems }
    ensures rules { LinesAddRulesTheySpell }
{}
