// The races of files, told to people and to programs.

use basis::NoMemory;
use byte_sinks::Metered;
use clap::ArgMatches;
use command_line::{
    Allowance, RaceWords, Request, Search, VERSION, has_dashed_top, has_dashed_waivers,
    has_one_output_for_two, has_opposites, has_output_over_file, has_two_dumps, race_request_of,
    race_search_of, race_words_of,
};
use finding_text::Sources;
use output_files::{
    ONE_FOR_TWO, OVER_ANOTHER, OVER_SOURCE, OVER_WAIVERS, Outputs, Over, are_one, is_another,
};
use program_base::{DASHED, Stop, options_for, read_file, texts, with_words, write_out};
use race_facts::{cut_values_of, findings_of, places_of, reach_of, setting_of};
use race_findings::{Finding, TopFound, races_status};
use race_groups::Scope;
use race_page::{Page, TopRaces};
use race_text::{
    Findings, Format, KEPT, SearchSummary, ToldRace, Tops, WaiverLines, races_texts, summary_text,
    told_races,
};
use race_waivers::Waived;
use race_words::{Waiver, WaiverFault, WaiverScope, read_waivers};
use run_pair::write_pair;
use search_meter::Meter;
use shown_text::shown_name;
use std::alloc::Global;
use std::process::ExitCode;
use vmachine::Machine;
use vrace::{Budget, Fault, FoundRaces, Options, Spent, find_races_in};
use written_times::{Bounds, TimeFault, Times};

// What a search may take of which nothing is said.
const NO_LIMIT: Allowance = Allowance {
    seconds: None,
    memory: None,
    progress: false,
};

// How what was found is written, by the value of `--format`.
fn format_of(word: Option<&str>) -> Format {
    match word {
        Some("json") => Format::Json,
        Some("jsonl") => Format::JsonLines,
        Some("sarif") => Format::Sarif,
        _ => Format::Text,
    }
}

// By which option the search was stopped, where it was.
fn stopped_by(spent: Spent) -> &'static [u8] {
    match spent {
        Spent::Time => b"--seconds",
        Spent::Memory => b"--memory",
    }
}

// What is told beside the races.
fn summary_of(
    options: &Options<'_>,
    scope: &Scope,
    all: bool,
    is_top_named: bool,
    meter: &Meter<'_>,
) -> SearchSummary {
    SearchSummary {
        departures: options.limits.depart,
        steps: options.limits.steps,
        is_top_named,
        from: scope.from,
        all,
        states: meter.states(),
        milliseconds: meter.elapsed(),
        stopped_by: stopped_by(meter.spent()),
    }
}

// The text of the file of waivers.
fn waivers_of(rt: &HostRuntime, words: &RaceWords<'_>) -> Result<Vec<u8>, Stop> {
    match words.waive {
        None => Ok(Vec::new(rt.alloc())),
        Some(name) => Ok(read_file(rt, name)?),
    }
}

// The waivers of the text.
fn read(alloc: Global, text: &[u8]) -> Result<Vec<Waiver<'_>>, Stop> {
    match read_waivers(alloc, text) {
        Ok(waivers) => Ok(waivers),
        Err(WaiverFault::Line(line)) => Err(Stop::BadWaiver(line)),
        Err(WaiverFault::Memory(_)) => Err(Stop::NoMemory),
    }
}

// Whether a waiver asks for the names of all differences.
fn some_asks_for_names(waivers: &[Waiver<'_>]) -> bool {
    for waiver in waivers {
        if let WaiverScope::Variables(_) = waiver.scope {
            return true;
        }
    }
    false
}

// Which differences are told, and how many are kept by name.
fn scope_of(all: bool, waivers: &[Waiver<'_>], from: u64) -> Scope {
    Scope {
        from,
        names: if all || some_asks_for_names(waivers) {
            usize::MAX
        } else {
            KEPT
        },
    }
}

// How many steps a run may have, as far as a log counts them.
fn steps_of(request: &Request<'_>) -> u32 {
    match u32::try_from(request.steps) {
        Ok(steps) => steps,
        Err(_) => u32::MAX,
    }
}

// What is asked for: the files, by their names and texts, how they are searched, between which times, and the waivers.
#[derive(Clone, Copy)]
struct Asked<'a> {
    names: &'a [&'a str],
    texts: &'a [Vec<u8>],
    request: &'a Request<'a>,
    search: &'a Search,
    words: &'a RaceWords<'a>,
    waivers: &'a [Waiver<'a>],
    bounds: Bounds,
    steps: u32,
}

// What was told so far: of each top module, the file of waivers, how many names each waiver waives, and what the exit status is made of.
#[derive(Drop)]
struct Answer<'w> {
    tops: Tops<'w>,
    waivers: WaiverLines,
    names: Vec<u64>,
    page: Option<Page>,
    dump: Option<Vec<u8>>,
    found: Vec<TopFound>,
}

// A page that nothing is told on yet, where one is asked for.
fn no_page(alloc: Global, words: &RaceWords<'_>, steps: u32) -> Result<Option<Page>, NoMemory> {
    match words.html {
        None => Ok(None),
        Some(_) => Ok(Some(Page::new(alloc, steps)?)),
    }
}

// Of how many names a waiver waives is told, where it waives more than so many.
const MOST_NAMES: u64 = 100;

// Of each waiver how many names it waives: in the top modules so far, and in one more.
fn add_names(
    alloc: Global,
    waivers: &[Waiver<'_>],
    names: &[u64],
    waived: &Waived,
) -> Result<Vec<u64>, NoMemory> {
    let mut sums = Vec::new(alloc);
    for (place, _) in waivers.iter().enumerate() {
        let before = names.get(place).copied().unwrap_or(0);
        sums.push(before.saturating_add(waived.name_count(place)))?;
    }
    Ok(sums)
}

// Nothing.
fn no_answer<'w>(
    alloc: Global,
    words: &RaceWords<'_>,
    waivers: &'w [Waiver<'w>],
    steps: u32,
) -> Result<Answer<'w>, NoMemory> {
    Ok(Answer {
        tops: Tops::new(
            alloc,
            format_of(words.format),
            words.tops.len() > 1,
            waivers,
        ),
        waivers: WaiverLines::new(alloc),
        names: Vec::new(alloc),
        page: no_page(alloc, words, steps)?,
        dump: None,
        found: Vec::new(alloc),
    })
}

// The first of the races that isn't waived.
fn first_unwaived<'a>(findings: &Findings<'a>) -> Option<&'a Finding> {
    for (place, finding) in findings.races.iter().enumerate() {
        if findings.waiver(place).is_none() {
            return Some(finding);
        }
    }
    None
}

// The dump of both runs of the race. A text that is held refuses for want of memory alone.
fn dump_of(
    alloc: Global,
    machine: &Machine,
    finding: &Finding,
    steps: u32,
) -> Result<Vec<u8>, Stop> {
    let mut writer = Metered::new(Vec::new(alloc));
    match write_pair(alloc, machine, &finding.log, steps, &mut writer) {
        Ok(()) => Ok(writer.into_inner()),
        Err(_) => Err(Stop::NoMemory),
    }
}

// The dump of both runs of the first race that isn't waived, where one is asked for, there isn't one yet, and there is such a race.
fn put_dump(
    alloc: Global,
    answer: &mut Answer<'_>,
    machine: &Machine,
    findings: &Findings<'_>,
    asked: &Asked<'_>,
) -> Result<(), Stop> {
    if asked.words.dump.is_none() || answer.dump.is_some() {
        return Ok(());
    }
    if let Some(finding) = first_unwaived(findings) {
        answer.dump = Some(dump_of(alloc, machine, finding, asked.steps)?);
    }
    Ok(())
}

// The places of the findings that the races are told of.
fn places_of_races(alloc: Global, races: &[ToldRace]) -> Result<Vec<usize>, NoMemory> {
    let mut places = Vec::new(alloc);
    for race in races {
        places.push(race.place)?;
    }
    Ok(places)
}

// Puts what was found of a top module onto the page.
fn put_page(
    alloc: Global,
    page: &mut Page,
    machine: &Machine,
    findings: &Findings<'_>,
) -> Result<(), NoMemory> {
    let races = told_races(alloc, findings)?;
    let summary = summary_text(alloc, findings, &races)?;
    let words = races_texts(alloc, findings, &races)?;
    page.tell(&TopRaces {
        setting: findings.setting,
        machine,
        sources: findings.sources,
        findings: findings.races,
        races: &places_of_races(alloc, &races)?,
        summary: &summary,
        words: &words,
    })
}

// Puts what was found of a top module onto the page and into the dump, where they are asked for.
fn put_pictures(
    alloc: Global,
    answer: &mut Answer<'_>,
    machine: &Machine,
    findings: &Findings<'_>,
    asked: &Asked<'_>,
) -> Result<(), Stop> {
    if let Some(page) = &mut answer.page {
        put_page(alloc, page, machine, findings)?;
    }
    put_dump(alloc, answer, machine, findings, asked)
}

// Puts what was found of a top module.
fn put_findings(
    answer: &mut Answer<'_>,
    findings: &Findings<'_>,
    words: &RaceWords<'_>,
) -> Result<(), NoMemory> {
    answer.tops.tell(findings)?;
    if words.write_waivers.is_some() {
        answer.waivers.waive(findings)?;
    }
    answer
        .found
        .push(TopFound::new(findings.waived.waivers(), findings.reach))?;
    Ok(())
}

// Tells what was found of a top module: in the answer, on the page, and in the dump.
fn tell_found(
    alloc: Global,
    asked: &Asked<'_>,
    found: &FoundRaces,
    summary: &SearchSummary,
    answer: &mut Answer<'_>,
) -> Result<(), Stop> {
    let machine = &found.machine;
    let setting = setting_of(machine);
    let places = places_of(alloc, machine, &found.origins)?;
    let races = findings_of(alloc, machine, &found.races, summary.from)?;
    let cut_values = cut_values_of(alloc, machine, &found.races.cut_ends)?;
    let reach = reach_of(machine, &found.races, summary.steps)?;
    let sources = Sources {
        names: asked.names,
        texts: asked.texts,
        places: &places,
    };
    let waived = Waived::new(alloc, asked.waivers, setting.design, &sources, &races)?;
    answer.names = add_names(alloc, asked.waivers, &answer.names, &waived)?;
    let findings = Findings {
        setting,
        sources: &sources,
        races: &races,
        cut_values: cut_values.as_ref(),
        reach: &reach,
        summary,
        waivers: asked.waivers,
        waived: &waived,
    };
    put_findings(answer, &findings, asked.words)?;
    put_pictures(alloc, answer, machine, &findings, asked)
}

// Searches the top module, or the only one, and puts what was found.
fn tell_top(
    alloc: Global,
    asked: &Asked<'_>,
    top: Option<&str>,
    meter: &mut Meter<'_>,
    answer: &mut Answer<'_>,
) -> Result<(), Stop> {
    let words = asked.words;
    let options = options_for(asked.request, asked.search, top, asked.bounds.until)?;
    let scope = scope_of(words.all, asked.waivers, asked.bounds.from);
    let found = find_races_in(alloc, asked.texts, &options, &scope, meter)?;
    let summary = summary_of(&options, &scope, words.all, top.is_some(), meter);
    tell_found(alloc, asked, &found, &summary, answer)
}

// Searches each top module on its own, each with all that a search may take.
fn tell_tops(rt: &HostRuntime, asked: &Asked<'_>, answer: &mut Answer<'_>) -> Result<(), Stop> {
    let allowance = asked.search.allowance.unwrap_or(NO_LIMIT);
    if asked.words.tops.is_empty() {
        let mut meter = Meter::new(rt, allowance);
        tell_top(rt.alloc(), asked, None, &mut meter, answer)?;
    }
    for top in &asked.words.tops {
        let mut meter = Meter::new(rt, allowance);
        tell_top(rt.alloc(), asked, Some(*top), &mut meter, answer)?;
    }
    Ok(())
}

// The names of the files that are to be written: of waivers, of a page, of a dump.
fn named_outputs<'a>(alloc: Global, words: &RaceWords<'a>) -> Result<Outputs<'a>, NoMemory> {
    let mut outputs = Outputs::new(alloc);
    for name in [words.write_waivers, words.html, words.dump] {
        if let Some(name) = name {
            outputs.put(name, None, Over::Any)?;
        }
    }
    Ok(outputs)
}

// Whether the file that is to be written is that of the waivers that are read.
fn is_waivers(rt: &HostRuntime, words: &RaceWords<'_>, name: Option<&str>) -> bool {
    match (words.waive, name) {
        (Some(waivers), Some(name)) => are_one(rt, waivers, name),
        _ => false,
    }
}

// Whether the dump would be written over what isn't one.
fn is_over_another(rt: &HostRuntime, words: &RaceWords<'_>) -> bool {
    match words.dump {
        Some(name) if words.over_dumps_alone => is_another(rt, name),
        _ => false,
    }
}

// Whether each file that is asked for can be written, and takes the place of none that is read, nor of another. Waivers may be read and
// written by one call. Nothing that is there is changed.
fn try_files(rt: &HostRuntime, words: &RaceWords<'_>, files: &[&str]) -> Result<(), Stop> {
    let outputs = named_outputs(rt.alloc(), words)?;
    outputs.look(rt, files)?;
    if is_waivers(rt, words, words.html) || is_waivers(rt, words, words.dump) {
        return Err(Stop::Usage(OVER_WAIVERS));
    }
    if is_over_another(rt, words) {
        return Err(Stop::Usage(OVER_ANOTHER));
    }
    outputs.try_all(rt)?;
    Ok(())
}

// What the dump may be written over.
fn over_of(words: &RaceWords<'_>) -> Over {
    if words.over_dumps_alone {
        Over::OwnDumps
    } else {
        Over::Any
    }
}

// The files that are to be written, with their texts. Where there is no dump, one that was written before goes, as it would be taken for
// that of this call.
fn told_outputs<'a>(
    alloc: Global,
    words: &RaceWords<'a>,
    waivers: WaiverLines,
    page: Option<Page>,
    dump: Option<Vec<u8>>,
) -> Result<Outputs<'a>, Stop> {
    let mut outputs = Outputs::new(alloc);
    if let Some(name) = words.write_waivers {
        outputs.put(name, Some(waivers.text()?), Over::Any)?;
    }
    if let (Some(name), Some(page)) = (words.html, page) {
        outputs.put(name, Some(page.document()?), Over::Any)?;
    }
    if let Some(name) = words.dump {
        outputs.put(name, dump, over_of(words))?;
    }
    Ok(outputs)
}

// Says that there is no dump, where one was asked for.
fn say_undumped(rt: &HostRuntime, words: &RaceWords<'_>, is_dumped: bool) {
    if let Some(name) = words.dump {
        if is_dumped {
            return;
        }
        if let Ok(name) = shown_name(rt.alloc(), name) {
            let _ = eprintln!(rt;
                "no dump is written to {name}: there is no race that isn't waived"
            );
        }
    }
}

// Says of each waiver of many names how many it waives.
fn say_wide(rt: &HostRuntime, file: &str, waivers: &[Waiver<'_>], names: &[u64]) {
    for (place, waiver) in waivers.iter().enumerate() {
        let (line, count) = (waiver.line, names.get(place).copied().unwrap_or(0));
        if count > MOST_NAMES {
            let _ = eprintln!(rt; "{file}:{line}: waives {count} names");
        }
    }
}

// The same, of the file of the waivers that were read.
fn say_waived(rt: &HostRuntime, asked: &Asked<'_>, names: &[u64]) {
    if let Some(file) = asked.words.waive {
        if let Ok(file) = shown_name(rt.alloc(), file) {
            say_wide(rt, file.as_str(), asked.waivers, names);
        }
    }
}

// The refusal where standard output fails, with what the files are now.
fn unprinted(alloc: Global, outputs: &Outputs<'_>) -> Stop {
    match outputs.unprinted_text(alloc) {
        Ok(words) => Stop::Told(Fault::Write, words.into_bytes()),
        Err(refused) => Stop::from(refused),
    }
}

// Writes the document behind the files.
fn write_document(rt: &HostRuntime, outputs: &Outputs<'_>, document: &[u8]) -> Result<(), Stop> {
    match write_out(rt, document) {
        Ok(()) => Ok(()),
        Err(stop) => Err(match stop.untold() {
            Some(Fault::Write) => unprinted(rt.alloc(), outputs),
            _ => stop,
        }),
    }
}

// Writes the files that are asked for, and then what was told.
fn write_answer(
    rt: &HostRuntime,
    words: &RaceWords<'_>,
    answer: Answer<'_>,
) -> Result<ExitCode, Stop> {
    let Answer {
        tops,
        waivers,
        page,
        dump,
        found,
        ..
    } = answer;
    let document = tops.document(VERSION)?;
    let is_dumped = dump.is_some();
    let mut outputs = told_outputs(rt.alloc(), words, waivers, page, dump)?;
    outputs.write(rt)?;
    say_undumped(rt, words, is_dumped);
    write_document(rt, &outputs, &document)?;
    Ok(ExitCode::from(races_status(&found)))
}

// Tells the races of the texts on standard output.
fn tell(
    rt: &HostRuntime,
    request: &Request<'_>,
    search: &Search,
    words: &RaceWords<'_>,
    times: Times,
    waivers: &[Waiver<'_>],
    texts: &[Vec<u8>],
) -> Result<ExitCode, Stop> {
    let asked = Asked {
        names: &request.files,
        texts,
        request,
        search,
        words,
        waivers,
        bounds: times.bounds(rt.alloc(), texts)?,
        steps: steps_of(request),
    };
    let mut answer = no_answer(rt.alloc(), words, waivers, asked.steps)?;
    tell_tops(rt, &asked, &mut answer)?;
    say_waived(rt, &asked, &answer.names);
    write_answer(rt, words, answer)
}

// The times between which races are told. A word that is no time is E404.
fn times_of(words: &RaceWords<'_>) -> Result<Times, Stop> {
    match Times::new(words.until, words.from) {
        Ok(times) => Ok(times),
        Err(TimeFault::NoTime) => Err(Stop::Refused(Fault::OutOfLimit)),
        Err(fault) => Err(Stop::from(fault)),
    }
}

// Tells the races of what is asked for on standard output; a refusal of the files is told in words.
fn tell_races(
    rt: &HostRuntime,
    request: &Request<'_>,
    search: &Search,
    words: &RaceWords<'_>,
) -> Result<ExitCode, Stop> {
    options_for(request, search, None, 0)?;
    let times = times_of(words)?;
    try_files(rt, words, &request.files)?;
    let waivers = waivers_of(rt, words)?;
    let waivers = read(rt.alloc(), &waivers)?;
    let texts = texts(rt, &request.files)?;
    let done = tell(rt, request, search, words, times, &waivers, &texts);
    with_words(
        rt.alloc(),
        done,
        request.in_words,
        &request.files,
        &texts,
        &words.tops,
    )
}

// Said of options that take back what others ask for.
const OPPOSITES: &str = "--hold doesn't go with --taking, nor --lines with --values";

// Said of two options that name one dump.
const TWO_DUMPS: &str =
    "--vcd doesn't go with --write-vcd: both name the dump that is to be written";

// What the words after `races` ask for that can't be had, if anything.
fn misfit_in(matches: &ArgMatches<'_>) -> Option<&'static str> {
    if has_dashed_top(matches) || has_dashed_waivers(matches) {
        Some(DASHED)
    } else if has_opposites(matches) {
        Some(OPPOSITES)
    } else if has_two_dumps(matches) {
        Some(TWO_DUMPS)
    } else if has_output_over_file(matches) {
        Some(OVER_SOURCE)
    } else if has_one_output_for_two(matches) {
        Some(ONE_FOR_TWO)
    } else {
        None
    }
}

/// Tells the races that the words ask for on standard output.
pub fn races_by<'a>(rt: &HostRuntime, matches: &ArgMatches<'a>) -> Result<ExitCode, Stop> {
    if let Some(reason) = misfit_in(matches) {
        return Err(Stop::Usage(reason));
    }
    let request = race_request_of(rt.alloc(), matches)?;
    let words = race_words_of(rt.alloc(), matches)?;
    tell_races(rt, &request, &race_search_of(matches), &words)
}
