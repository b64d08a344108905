// A reader of tokens by recursive descent, and how it reads names, and what a value is given to.
ghost use Rattle.std.specs.Prelude.{◌≡◌, OnOk};
ghost use Rattle.ereader_grammar.specs.Reading as reading;
ghost use Rattle.ereader_grammar.specs.Reading.{rest_of};
ghost use Rattle.ereader_parser.specs.View.{left_of, Advances, IsNoLonger, GivesPlain, GivesPatterns, GivesPlace, GoesPast};

use ereader_forms::words::RefWord;
use ereader_nodes::target::Target;
use ereader_signs::stop::ReadStop;
use etoken::breaks::Bracket;
use etoken::token::{Placed, Sign, Token};
use ids::text::Text;
use kernele::tree::Pattern;
use std::alloc::Global;

/// A reader of tokens.
#[derive(Drop)]
pub struct Reader<'a> {
    pub alloc: Global,
    /// What is left to read.
    pub rest: &'a [Placed],
}

impl<'a> Reader<'a> {
    /// Goes past a token, if there is one.
    pub(crate) fn skip(&mut self)
        ensures { left_of self.new ≡ rest_of (left_of self.old) }
    {
        if let Some((_, rest)) = self.rest.split_first() {
            self.rest = rest;
        }
    }

    /// Goes past an opening bracket.
    pub(crate) fn open(&mut self, bracket: Bracket) -> Result<(), ReadStop>
        ensures { GoesPast result self.old self.new (reading.is_open bracket) }
    {
        if !self.at_open(bracket) {
            return Err(ReadStop::Unexpected);
        }
        self.skip();
        Ok(())
    }

    /// Goes past a closing bracket.
    pub(crate) fn close(&mut self, bracket: Bracket) -> Result<(), ReadStop>
        ensures { GoesPast result self.old self.new (reading.is_close bracket) }
    {
        if !self.at_close(bracket) {
            return Err(ReadStop::Unexpected);
        }
        self.skip();
        Ok(())
    }

    /// Goes past the `->` of a `when`.
    pub(crate) fn arrow(&mut self) -> Result<(), ReadStop>
        ensures { GoesPast result self.old self.new reading.is_arrow }
    {
        if !self.at_arrow() {
            return Err(ReadStop::Unexpected);
        }
        self.skip();
        Ok(())
    }

    /// A name, such as a verb.
    pub(crate) fn name(&mut self) -> Result<Text, ReadStop>
        ensures gives { GivesPlain result self.old self.new reading.name_at }
        ensures shorter { OnOk result (Advances self.old self.new) }
    {
        let Some((first, rest)) = self.rest.split_first() else {
            return Err(ReadStop::Unexpected);
        };
        match &first.token {
            Token::Name(name) => {
                let name = name.share()?;
                self.rest = rest;
                Ok(name)
            }
            _ => Err(ReadStop::Unexpected),
        }
    }

    /// A name with a meaning of its own behind `Ref.`.
    fn ref_name(&mut self) -> Result<RefWord, ReadStop>
        ensures { GivesPlain result self.old self.new reading.ref_name_at }
    {
        let Some((first, rest)) = self.rest.split_first() else {
            return Err(ReadStop::Unexpected);
        };
        let Token::Name(name) = &first.token else {
            return Err(ReadStop::Unexpected);
        };
        let Some(word) = RefWord::of(name.as_str()) else {
            return Err(ReadStop::Unexpected);
        };
        self.rest = rest;
        Ok(word)
    }

    /// The `.` behind `Ref`, and such a name.
    pub(crate) fn ref_word(&mut self) -> Result<RefWord, ReadStop>
        ensures { GivesPlain result self.old self.new reading.ref_word_at }
    {
        if !self.at_dot() {
            return Err(ReadStop::Unexpected);
        }
        self.skip();
        self.ref_name()
    }

    /// What a definition binds.
    pub(crate) fn pattern(&mut self) -> Result<Pattern, ReadStop>
        ensures gives { GivesPlain result self.old self.new reading.pattern_at }
        ensures shorter { OnOk result (Advances self.old self.new) }
    {
        let Some((first, rest)) = self.rest.split_first() else {
            return Err(ReadStop::Unexpected);
        };
        match &first.token {
            Token::Name(name) => {
                let name = name.share()?;
                self.rest = rest;
                Ok(Pattern::Name(name))
            }
            Token::Sign(Sign::Underscore) => {
                self.rest = rest;
                Ok(Pattern::Ignore)
            }
            _ => Err(ReadStop::Unexpected),
        }
    }

    /// One pattern or more, with commas between them.
    fn patterns(&mut self) -> Result<Vec<Pattern>, ReadStop>
        ensures gives { GivesPatterns result self.old self.new reading.patterns_at }
        ensures shorter { OnOk result (Advances self.old self.new) }
    {
        let first = self.pattern()?;
        let mut patterns = vec![in self.alloc; first]?;
        'more: while self.at_comma() {
            self.skip();
            let pattern = self.pattern()?;
            patterns.push(pattern)?;
        }
        Ok(patterns)
    }

    /// A list of patterns, behind its opening bracket.
    pub(crate) fn pattern_list(&mut self, bracket: Bracket) -> Result<Vec<Pattern>, ReadStop>
        ensures gives { GivesPatterns result self.old self.new (reading.pattern_list_at bracket) }
        ensures shorter { OnOk result (Advances self.old self.new) }
    {
        if self.at_close(bracket) {
            self.skip();
            return Ok(Vec::new(self.alloc));
        }
        let patterns = self.patterns()?;
        if !self.at_close(bracket) {
            return Err(ReadStop::Unexpected);
        }
        self.skip();
        Ok(patterns)
    }

    /// A pattern and the `:=` behind it.
    fn bound(&mut self) -> Result<Pattern, ReadStop>
        ensures gives { GivesPlain result self.old self.new reading.bound_at }
        ensures shorter { OnOk result (Advances self.old self.new) }
    {
        let pattern = self.pattern()?;
        if !self.at_becomes() {
            return Err(ReadStop::Unexpected);
        }
        self.skip();
        Ok(pattern)
    }

    /// A list of patterns, behind its opening bracket, and the `:=` behind it.
    fn bound_list(&mut self) -> Result<Vec<Pattern>, ReadStop>
        ensures gives { GivesPatterns result self.old self.new reading.bound_list_at }
        ensures shorter { OnOk result (Advances self.old self.new) }
    {
        let patterns = self.pattern_list(Bracket::Square)?;
        if !self.at_becomes() {
            return Err(ReadStop::Unexpected);
        }
        self.skip();
        Ok(patterns)
    }

    /// A name and the `:=` behind it.
    fn assigned(&mut self) -> Result<Text, ReadStop>
        ensures gives { GivesPlain result self.old self.new reading.assigned_at }
        ensures shorter { OnOk result (Advances self.old self.new) }
    {
        let name = self.name()?;
        if !self.at_becomes() {
            return Err(ReadStop::Unexpected);
        }
        self.skip();
        Ok(name)
    }

    /// What a definition binds, behind its first word.
    fn definition(&mut self) -> Result<Option<Target>, ReadStop>
        ensures gives { GivesPlace result self.old self.new reading.define_at }
        ensures shorter { OnOk result (Advances self.old self.new) }
    {
        if self.at_open(Bracket::Square) {
            self.skip();
            return Ok(Some(Target::Definitions(self.bound_list()?)));
        }
        Ok(Some(Target::Definition(self.bound()?)))
    }

    /// What the value behind it is given to, if there is a `:=`.
    pub(crate) fn target(&mut self) -> Result<Option<Target>, ReadStop>
        ensures gives { GivesPlace result self.old self.new reading.target_at }
        ensures shorter { OnOk result (IsNoLonger self.old self.new) }
    {
        if self.at_definition() {
            self.skip();
            return self.definition();
        }
        if self.at_variable() {
            self.skip();
            return Ok(Some(Target::Variable(self.assigned()?)));
        }
        if self.at_assignment() {
            return Ok(Some(Target::Assignment(self.assigned()?)));
        }
        Ok(None)
    }
}
