//! The script of a page, which draws its data.

/// What stands after the data: the script, and the end of the page.
pub(crate) const AFTER_DATA: &str = "\
</script>
<script>
'use strict';
const data = JSON.parse(document.getElementById('data').textContent);
const PAGE = 100;
const BINS = 300;
const SPACE = document.getElementById('space').namespaceURI;
const DOWN = 'BD';

const at = id => document.getElementById(id);
const grouped = number => Number(number).toLocaleString('en');
const plural = (number, one, many) => grouped(number) + ' ' + (number === 1 ? one : many);
// Cycles are decimal without leading zeros, and may be above what a number holds.
const byCycle = (one, other) => one.length - other.length || (one < other ? -1 : one > other ? 1 : 0);

function make(name, attributes, ...children) {
  const node = document.createElement(name);
  for (const key of Object.keys(attributes)) node.setAttribute(key, attributes[key]);
  node.append(...children);
  return node;
}

function draw(name, attributes, ...children) {
  const node = document.createElementNS(SPACE, name);
  for (const key of Object.keys(attributes)) node.setAttribute(key, attributes[key]);
  node.append(...children);
  return node;
}

const line = (kind, x1, y1, x2, y2) => draw('line', { class: kind, x1, y1, x2, y2 });
const write = (kind, x, y, anchor, text) => draw('text', { class: kind, x, y, 'text-anchor': anchor }, text);
const head = names => make('thead', {}, make('tr', {}, ...names.map(([name, kind]) => make('th', { scope: 'col', class: kind || '' }, name))));

// ---- what is counted ----

const rows = data.rows.map(([link, cycle, rule, earlier, text]) => ({ link, cycle, rule, earlier, text, low: '' }));

function tally(key) {
  const found = new Map();
  for (const row of rows) {
    const own = found.get(row[key]);
    if (!own) found.set(row[key], { count: 1, first: row });
    else {
      own.count += 1;
      if (byCycle(row.cycle, own.first.cycle) < 0) own.first = row;
    }
  }
  return found;
}

const ofRules = tally('rule');
const ofLinks = tally('link');
const rulesFound = Object.keys(data.rules).filter(rule => ofRules.has(rule));
const linksFound = data.links.map((_, link) => link).filter(link => ofLinks.has(link));

function tellCounts() {
  at('title').textContent = data.title;
  document.title = 'tlcheck: ' + data.title;
  const checked = data.checked;
  at('checked').textContent = checked.beats === 0
    ? 'Nothing was checked: no link has a beat.'
    : 'Checked: ' + plural(checked.beats, 'beat', 'beats') + ', ' + plural(checked.heads, 'head', 'heads') + ', '
      + plural(checked.windows, 'window', 'windows') + ' of 4,096 cycles.';
  at('open').textContent = 'Open after the last beat: '
    + Object.keys(data.open).map(name => name + ' ' + grouped(data.open[name])).join(', ') + '.';
  const tiles = [['rows', rows.length], ['rules with rows', ofRules.size], ['links with rows', ofLinks.size + ' of ' + data.links.length]];
  at('counts').append(...tiles.map(([name, number]) =>
    make('div', {}, make('dt', {}, name), make('dd', {}, typeof number === 'number' ? grouped(number) : number))));
}

function pick(id, value, name) {
  const button = make('button', { type: 'button', class: 'pick', title: 'Show only these rows' }, name);
  button.addEventListener('click', () => {
    at(id).value = value;
    change();
    at('of-rows').scrollIntoView();
  });
  return button;
}

function rulesTable() {
  const body = make('tbody', {});
  for (const rule of rulesFound) {
    const { count, first } = ofRules.get(rule);
    body.append(make('tr', {},
      make('th', { scope: 'row' }, pick('rule', rule, rule)),
      make('td', {}, data.rules[rule]),
      make('td', { class: 'number' }, grouped(count)),
      make('td', { class: 'number' }, first.cycle),
      make('td', {}, data.links[first.link].name)));
  }
  at('rules').append(
    make('caption', {}, rulesFound.length ? 'Each rule that a row breaks' : 'No rows'));
  if (rulesFound.length) {
    at('rules').append(head([['Rule'], ['What is so where it is broken'], ['Rows', 'number'], ['First at cycle', 'number'], ['On link']]), body);
  }
}

// ---- strips ----

function range() {
  const linked = data.links.filter(link => link.beats);
  if (!linked.length) return null;
  const firsts = linked.map(link => link.first).sort(byCycle);
  const lasts = linked.map(link => link.last).sort(byCycle);
  return { first: firsts[0], last: lasts[lasts.length - 1] };
}

const all = range();

function bin(cycle) {
  const wide = Number(all.last) - Number(all.first) + 1;
  return Math.min(BINS - 1, Math.floor((Number(cycle) - Number(all.first)) / wide * BINS));
}

function bars(link) {
  const counts = new Array(BINS).fill(0);
  for (const row of rows) if (row.link === link) counts[bin(row.cycle)] += 1;
  const most = Math.log(1 + Math.max(...counts));
  return counts.map((count, place) => {
    const high = count && Math.max(4, Math.log(1 + count) / most * 18);
    return count ? 'M' + place + ' 20v-' + high.toFixed(1) + 'h1.5v' + high.toFixed(1) + 'z' : '';
  }).join('');
}

function strip(link, number) {
  const said = plural(number ? number.count : 0, 'row', 'rows') + ' of ' + data.links[link].name + ', from cycle ' + all.first + ' to ' + all.last;
  const svg = draw('svg', { viewBox: '0 0 ' + BINS + ' 24', preserveAspectRatio: 'none', role: 'img', 'aria-label': said });
  const own = data.links[link];
  if (own.beats) {
    const from = bin(own.first);
    svg.append(draw('rect', { class: 'span', x: from, y: 20, width: Math.max(1, bin(own.last) - from + 1), height: 3 }));
  }
  if (number) svg.append(draw('path', { class: 'bars', d: bars(link) }));
  return svg;
}

function linksTable() {
  const body = make('tbody', {});
  data.links.forEach((link, place) => {
    const found = ofLinks.get(place);
    body.append(make('tr', {},
      make('th', { scope: 'row' }, found ? pick('link', String(place), link.name) : link.name),
      make('td', {}, link.level),
      make('td', { class: 'number' }, grouped(link.beats)),
      make('td', { class: 'number' }, grouped(found ? found.count : 0)),
      make('td', { class: 'number' }, found ? found.first.cycle : ''),
      make('td', { class: 'strip' }, all ? strip(place, found) : '')));
  });
  const axis = all
    ? make('div', { class: 'axis' }, make('span', {}, 'cycle ' + all.first), make('span', {}, 'cycle ' + all.last))
    : '';
  const names = head([['Link'], ['Level'], ['Beats', 'number'], ['Rows', 'number'], ['First at cycle', 'number'], ['']]);
  names.querySelector('th:last-child').append(axis);
  at('links').append(make('caption', {}, 'The line under a strip is where the link has beats, and a bar is where it has rows'), names, body);
}

// ---- a row ----

// What --show says of a row: its lines, the first of which is the row.
const linesOf = row => row.text.split('\\n').slice(1, -1).map(each => each.trim());
const afterCycle = text => text.slice(text.indexOf(': ', text.indexOf(', cycle ')) + 2);
const messageOf = words => words.split(',')[0];

function wordsOf(row) {
  const [own, , ...others] = linesOf(row);
  if (!own) return make('span', { class: 'soft' }, 'this row is after those whose reason is told');
  const list = make('ul', {}, make('li', { class: 'code' }, afterCycle(own)));
  for (const each of others) {
    const end = each.indexOf(': ');
    list.append(make('li', {}, make('span', { class: 'soft' }, each.slice(0, end + 2)), make('span', { class: 'code' }, each.slice(end + 2))));
  }
  return list;
}

// Where the lanes of a picture stand: the row's client to the left of its manager, another client to the right.
function lanesOf(row) {
  const cycles = Math.max(row.cycle.length, row.earlier ? row.earlier[1].length : 0);
  const client = 60 + cycles * 7.5;
  const manager = client + 165;
  const other = row.earlier && row.earlier[0] !== row.link ? manager + 165 : 0;
  return { client, manager, other, wide: (other || manager) + 60 };
}

// A message from the client's lane or from the manager's, with its cycle.
function message(lanes, y, beat, kind) {
  const client = beat.isOther ? lanes.other : lanes.client;
  const [from, to] = DOWN.includes(beat.words[0]) ? [lanes.manager, client] : [client, lanes.manager];
  const back = to > from ? -8 : 8;
  return [
    write('', 4, y + 4, 'start', beat.cycle),
    line(kind, from, y, to + back, y),
    draw('polygon', { class: kind === 'broken' ? 'broken-head' : 'head', points: [to, y, to + back * 1.4, y - 5, to + back * 1.4, y + 5].join(' ') }),
    write(kind === 'broken' ? 'broken-text' : '', (from + to) / 2, y - 9, 'middle', messageOf(beat.words)),
  ];
}

function cross(x, y) {
  return [line('broken', x - 5, y - 5, x + 5, y + 5), line('broken', x - 5, y + 5, x + 5, y - 5)];
}

// A dashed arrow from what makes a row so to its beat: along the client's lane, or along the manager's from another client.
function because(lanes, from, to) {
  const x = lanes.other ? lanes.manager : lanes.client;
  const side = x - 26;
  const path = ['M', x - 2, from, 'C', side, from, side, to, x - 12, to].join(' ');
  return [
    draw('path', { class: 'why', d: path }),
    draw('polygon', { class: 'why-head', points: [x - 3, to, x - 13, to - 4, x - 13, to + 4].join(' ') }),
  ];
}

function beatsOf(row) {
  const lines = linesOf(row);
  const why = lines.find((each, place) => place > 1 && each.includes(', cycle '));
  const own = { cycle: row.cycle, words: afterCycle(lines[0]) };
  const before = row.earlier && why ? { cycle: row.earlier[1], words: afterCycle(why), isOther: row.earlier[0] !== row.link } : null;
  const isMissing = lines.some(each => each.startsWith('none before: '));
  return { own, before, isMissing, reason: why ? why.split(':')[0] : '' };
}

function picture(row) {
  const { own, before, isMissing, reason } = beatsOf(row);
  const lanes = lanesOf(row);
  const y = before || isMissing ? 92 : 48;
  const high = y + 16;
  const said = (before ? reason + ': cycle ' + before.cycle + ', ' + messageOf(before.words) + '; ' : '')
    + (isMissing ? 'none before; ' : '') + 'cycle ' + own.cycle + ', ' + messageOf(own.words) + ' breaks ' + row.rule;
  const svg = draw('svg', { class: 'picture', width: lanes.wide, height: high, viewBox: '0 0 ' + lanes.wide + ' ' + high, role: 'img', 'aria-label': said });
  const names = [[lanes.client, data.links[row.link].name], [lanes.manager, 'manager']];
  if (lanes.other) names.push([lanes.other, data.links[row.earlier[0]].name]);
  for (const [x, name] of names) svg.append(write('quiet', x, 12, 'middle', name), line('lane', x, 18, x, high - 2));
  if (before) svg.append(...message(lanes, 48, before, 'beat'));
  if (isMissing) {
    svg.append(write('quiet', (lanes.client + lanes.manager) / 2, 52, 'middle', 'none before'), draw('circle', { class: 'beat', cx: lanes.client, cy: 48, r: 5 }));
  }
  if (before || isMissing) svg.append(...because(lanes, isMissing ? 53 : 48, y));
  svg.append(...message(lanes, y, own, 'broken'), ...cross((lanes.client + lanes.manager) / 2, y));
  svg.append(write('broken-text', lanes.manager + 10, y + 4, 'start', row.rule));
  return svg;
}

function rowOf(row) {
  const [link, fragment, place, , monitor] = row.text.split('\\n')[0].split(' ');
  const rule = row.rule + (monitor ? ' ' + monitor : '');
  return make('tr', {},
    make('td', {}, row.cycle),
    make('th', { scope: 'row' }, link),
    make('td', { class: 'number' }, fragment),
    make('td', { class: 'number' }, place),
    make('td', {}, make('strong', {}, rule), make('div', { class: 'soft' }, data.rules[row.rule])),
    make('td', {}, wordsOf(row)),
    make('td', {}, linesOf(row).length ? picture(row) : ''));
}

// ---- the table ----

let left = [];
let page = 0;

function isLeft(row, text, rule, link) {
  if (rule && row.rule !== rule || link && row.link !== Number(link)) return false;
  if (!text) return true;
  if (!row.low) row.low = row.text.toLowerCase();
  return row.low.includes(text);
}

function show() {
  const from = page * PAGE;
  const shown = left.slice(from, from + PAGE);
  at('found').textContent = left.length
    ? 'Rows ' + grouped(from + 1) + ' to ' + grouped(from + shown.length) + ' of ' + grouped(left.length)
      + (left.length < rows.length ? ' that fit, of ' + grouped(rows.length) + ' in all' : '')
    : rows.length ? 'No row fits, of ' + grouped(rows.length) + ' in all' : 'No rows';
  at('pages').hidden = left.length <= PAGE;
  at('before').disabled = page === 0;
  at('after').disabled = from + PAGE >= left.length;
  const names = head([['Cycle'], ['Link'], ['Fragment', 'number'], ['Line', 'number'], ['Rule'], ['Its beat, and what makes it wrong'], ['Picture']]);
  at('rows').replaceChildren();
  if (shown.length) {
    const caption = 'A cross marks the beat of the row; a dashed arrow leads to it from the earlier beat that makes it wrong';
    at('rows').append(make('caption', {}, caption), names, make('tbody', {}, ...shown.map(rowOf)));
  }
}

function turn(pages) {
  page += pages;
  show();
  at('of-rows').scrollIntoView();
}

// The filter stands behind the page's address, so that a view can be kept.
function keep() {
  const words = new URLSearchParams();
  for (const id of ['text', 'rule', 'link', 'order']) if (at(id).value && at(id).value !== 'cycle') words.set(id, at(id).value);
  const hash = String(words);
  if (hash !== location.hash.slice(1)) history.replaceState(null, '', hash ? '#' + hash : location.pathname + location.search);
}

function change() {
  const text = at('text').value.trim().toLowerCase();
  left = rows.filter(row => isLeft(row, text, at('rule').value, at('link').value));
  if (at('order').value === 'cycle') left.sort((one, other) => byCycle(one.cycle, other.cycle));
  page = 0;
  show();
  keep();
}

function choices(id, every, options) {
  at(id).append(make('option', { value: '' }, every), ...options.map(([value, name]) => make('option', { value }, name)));
}

function begin() {
  tellCounts();
  rulesTable();
  linksTable();
  choices('rule', 'all', rulesFound.map(rule => [rule, rule + ': ' + data.rules[rule] + ' (' + grouped(ofRules.get(rule).count) + ')']));
  choices('link', 'all', linksFound.map(link => [link, data.links[link].name + ' (' + grouped(ofLinks.get(link).count) + ')']));
  at('filter').hidden = !rows.length;
  const words = new URLSearchParams(location.hash.slice(1));
  for (const id of ['text', 'rule', 'link', 'order']) if (words.has(id)) at(id).value = words.get(id);
  for (const id of ['rule', 'link', 'order']) at(id).addEventListener('change', change);
  at('text').addEventListener('input', change);
  at('filter').addEventListener('submit', event => event.preventDefault());
  at('filter').addEventListener('reset', () => setTimeout(change));
  at('before').addEventListener('click', () => turn(-1));
  at('after').addEventListener('click', () => turn(1));
  change();
}

begin();
</script>
</body>
</html>
";
